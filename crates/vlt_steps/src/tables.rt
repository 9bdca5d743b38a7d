//! What machines do with their tables.

ghost use Rattle.std.specs.Prelude.{◌≡◌, ◌<◌, ◌≤◌, ◌++◌, ◌∷◌, [], length, vec_capacity};
ghost use Rattle.vlt_steps.specs.Numbers.{IsNext};

/// The first of the numbers, and the others.
pub fn next(left: &[i64]) -> Option<(i64, &[i64])>
    ensures { IsNext left.now result }
{
    match left.split_first() {
        Some((first, rest)) => Some((*first, rest)),
        None => None,
    }
}

/// One more item, for which there is room.
pub fn put<T: Drop>(items: &mut Vec<T>, item: T)
    requires room { length items.old.items < vec_capacity items.old }
    ensures items { items.new.items ≡ items.old.items ++ item ∷ [] }
    ensures room { vec_capacity items.old ≤ vec_capacity items.new }
{
    match items.push(item) {
        Ok(()) => {}
        Err(_) => unreachable!(),
    }
}
