//! Numbers and states, read from the front.

ghost use Rattle.std.specs.Prelude.{◌≡◌, ◌≤◌, ◌+◌, ℕ, nat_lt};
ghost use Rattle.vlt_base.specs.States.{has_state};
ghost use Rattle.vlt_meaning.specs.HostAnswers.{any_number, natural, members, state_in};
ghost use Rattle.vlt_externals.specs.HostAnswers.Read.{natural_in, passing, as_read, same, IsFirst, only_in};

use vlt_base::StateSet;

/// The next number.
pub fn number<'h>(left: &'h [i64]) -> Option<(i64, &'h [i64])>
    ensures { as_read same result ≡ any_number left.now }
{
    match left.split_first() {
        Some((z, rest)) => Some((*z, rest)),
        None => None,
    }
}

/// A number from 0.
fn from_zero(z: i64) -> Option<u64>
    ensures { result ≡ natural_in z }
{
    if z >= 0 { Some(z as u64) } else { None }
}

/// A number from 0 and below n.
fn index(z: i64, n: usize) -> Option<usize>
    ensures { result ≡ passing (λ k. nat_lt k n) z }
{
    match from_zero(z) {
        Some(k) => { if k < n as u64 { Some(k as usize) } else { None } }
        None => None,
    }
}

/// The next number, where it is from 0 and below n.
pub fn below<'h>(n: usize, left: &'h [i64]) -> Option<(usize, &'h [i64])>
    ensures { as_read same result ≡ natural (λ k. nat_lt k n) left.now }
{
    match left.split_first() {
        Some((z, rest)) => match index(*z, n) {
            Some(k) => Some((k, rest)),
            None => None,
        },
        None => None,
    }
}

/// A state of the set.
fn state_of(z: i64, states: StateSet) -> Option<u8>
    ensures { result ≡ passing (has_state states) z }
{
    match from_zero(z) {
        Some(k) => {
            if k >= 32 {
                return None;
            }
            if states.has(k as u8) {
                Some(k as u8)
            } else {
                None
            }
        }
        None => None,
    }
}

/// The next number, where it is a state of the set.
fn member<'h>(states: StateSet, left: &'h [i64]) -> Option<(u8, &'h [i64])>
    ensures { as_read same result ≡ natural (has_state states) left.now }
{
    match left.split_first() {
        Some((z, rest)) => match state_of(*z, states) {
            Some(s) => Some((s, rest)),
            None => None,
        },
        None => None,
    }
}

/// The first state of a set from one on.
fn first_member(states: StateSet, from: u8) -> Option<u8>
    requires { from ≤ 32 }
    ensures { (n : ℕ) → from + n ≡ 32 → IsFirst (has_state states) from n result }
{
    if from == 32 {
        None
    } else if states.has(from) {
        Some(from)
    } else {
        first_member(states, from + 1)
    }
}

/// The only state of a set, where it has just one.
fn only(states: StateSet) -> Option<u8>
    ensures { result ≡ only_in (members (has_state states)) }
{
    let Some(s) = first_member(states, 0) else {
        return None;
    };
    match first_member(states, s + 1) {
        None => Some(s),
        Some(_) => None,
    }
}

/// A state of a set; where the set has just one, nothing is read.
pub fn state<'h>(states: StateSet, left: &'h [i64]) -> Option<(u8, &'h [i64])>
    ensures { as_read same result ≡ state_in (has_state states) left.now }
{
    match only(states) {
        Some(s) => Some((s, left)),
        None => member(states, left),
    }
}
