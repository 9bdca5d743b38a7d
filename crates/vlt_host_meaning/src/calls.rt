ghost use Rattle.std.specs.Prelude.{◌≡◌, ◌^◌, ◌<◌, ◌∷◌, length, slice_get, slice_index, IsTrue};
ghost use Rattle.std.specs.Option.{option_map};
ghost use Rattle.vlt_numbers.specs.Ends.{are_ends};
ghost use Rattle.vlt_host_meaning.specs.Parts.{parts_of};

/// What a host gives to a function: a number, where a bool is 0 or 1, or an object by its number, from 1.
#[derive(Clone, Copy, Debug, PartialEq, Eq)]
pub enum HostArg {
    Number(i64),
    Object(u64),
}

/// The calls of a host, each a name with arguments.
#[derive(Debug, Drop)]
pub struct Calls {
    /// The names of all calls, one after another.
    pub names: Vec<u8>,
    /// For each call the position after its name.
    pub name_ends: Vec<u32>,
    /// The arguments of all calls, one after another.
    pub args: Vec<HostArg>,
    /// For each call the position after its last argument.
    pub arg_ends: Vec<u32>,
    pub ghost names_ordered: { IsTrue (are_ends 0 name_ends.items (length names.items)) },
    pub ghost args_ordered: { IsTrue (are_ends 0 arg_ends.items (length args.items)) },
    pub ghost paired: { length name_ends.items ≡ length arg_ends.items },
    pub ghost few: { length name_ends.items < 2 ^ 32 },
}

/// One call of a host.
#[derive(Clone, Copy, Debug)]
pub struct Call<'a> {
    pub name: &'a [u8],
    pub args: &'a [HostArg],
}

impl Calls {
    ghost use Rattle.vlt_host_meaning.specs.Tables.{call_of, calls_in};

    /// The call at an index, if there are so many.
    pub fn get(&self, index: usize) -> Option<Call<'_>>
        ensures { option_map call_of result ≡ slice_get (calls_in self.now) index }
    {
        let name = part(&self.names, &self.name_ends, index)?;
        let args = part(&self.args, &self.arg_ends, index)?;
        Some(Call { name, args })
    }
}

/// Where the part at an index begins, of parts that end at these positions.
fn start(ends: &[u32], index: usize) -> u32
    requires { index < length ends.now }
    ensures { result ≡ slice_index (0 ∷ ends.now) index }
{
    if index == 0 { 0 } else { ends[index - 1] }
}

/// The part at an index of items that are cut at these ends, if there are so many.
fn part<'a, T>(items: &'a [T], ends: &[u32], index: usize) -> Option<&'a [T]>
    requires { IsTrue (are_ends 0 ends.now (length items.now)) }
    ensures { option_map (λ part. part.now) result
        ≡ slice_get (parts_of 0 ends.now items.now) index }
{
    let end = *ends.get(index)?;
    Some(&items[start(ends, index) as usize..end as usize])
}
