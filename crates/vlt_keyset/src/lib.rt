//! Held maps as dense tables: rows pass or are refused, and maps are joined.
//! Read `specs/Held.antt` first.
//! Used by: the check of programs, and that of certificates, which is to come.
#![tactic(auto)]

ghost use Rattle.std.specs.Prelude.{◌≡◌, ◌↔◌, ◌<◌, ◌≤◌, ◌^◌, length, IsTrue, IfOk, OnOk, IfErr, OnErr, IfSome, IfNone, MatchBool};
ghost use Rattle.vlt_core.specs.View.{tok_of};
ghost use Rattle.vlt_core.specs.HeldView.{status_of, wanted_of, row_of};
ghost use Rattle.vlt_core.specs.Maps.{IsWanted, IsBelow, row_passed, absent};
ghost use Rattle.vlt_keyset.specs.Pairs.{map_of_pairs, AreInOrder, AreAmong, HasOnly};
ghost use Rattle.vlt_keyset.specs.Held.{map_of, HasPlace, IsSameRange, gap, IsJoin, IsTokenFault, IsJoinFault, IsApart};
ghost use Rattle.vlt_keyset.specs.Tables.{IsAlikeMap, IsAllAbsent, put_in};

mod apart;
mod faults;
mod pairs;
mod statuses;
mod tables;
mod tokens;

use apart::{test_keys, test_vars};
pub use faults::{Apart, JoinFault, TokenFault};
pub use pairs::in_order;
use statuses::{changed, is_wanted};
use std::alloc::{AllocError, Global};
use std::marker::Model;
use tables::{all_absent_from, all_below, all_same, first_unlike, reach_to, status_at, unite_all};
pub use tokens::TokenCounts;
use vlt_base::{KeyId, Memory, VarId};
use vlt_core::{Row, Status, Tok};

/// The status of each token of a function: a table of its keys and one of its variables.
#[derive(Drop)]
pub struct Held {
    keys: Vec<Status>,
    vars: Vec<Status>,
    ghost few_keys: { length keys.items ≤ 2 ^ 32 },
    ghost few_vars: { length vars.items ≤ 2 ^ 32 },
}

impl Model for Held {
    ghost use Rattle.vlt_keyset.specs.Held.{Statuses};

    ghost Value = { Statuses };

    ghost view = { λ h. record { keys = h.keys.items; vars = h.vars.items } };
}

/// A table whose tokens are all absent.
fn absents(alloc: Global, count: u32) -> Result<Vec<Status>, AllocError>
    ensures long { IfOk result (λ v. length v.items ≡ count) }
    ensures absent { IfOk result (λ v. IsAllAbsent v.items) }
{
    let mut table = Vec::with_capacity(alloc, count as usize)?;
    for _i in 0..count {
        table.push(Status::Absent)?;
    }
    Ok(table)
}

impl Held {
    /// A map with places for so many keys and variables, in which each token is absent. It takes all the memory that
    /// these places ever need.
    pub fn open(alloc: Global, keys: u32, vars: u32) -> Result<Held, Memory>
        ensures absent { IfOk result (λ h. map_of h ≡ (λ t. absent)) }
        ensures keys { IfOk result (λ h. length h.keys ≡ keys) }
        ensures vars { IfOk result (λ h. length h.vars ≡ vars) }
    {
        let keys = absents(alloc, keys)?;
        let vars = absents(alloc, vars)?;
        Ok(Held { keys, vars })
    }

    /// A map for so many keys and variables that says what the pairs say; `None` where one of their tokens isn't among these.
    pub fn of_pairs(
        alloc: Global,
        counts: TokenCounts,
        pairs: &[(Tok, Status)],
    ) -> Result<Option<Held>, Memory>
        ensures map { IfOk result (λ o. IfSome o (λ h. map_of h ≡ map_of_pairs pairs.now)) }
        ensures keys { IfOk result (λ o. IfSome o (λ h. length h.keys ≡ counts.keys)) }
        ensures vars { IfOk result (λ o. IfSome o (λ h. length h.vars ≡ counts.vars)) }
        ensures none { IfOk result
            (λ o. IfNone o (AreAmong counts.keys counts.vars pairs.now → ⊥)) }
    {
        let mut held = Held::open(alloc, counts.keys, counts.vars)?;
        let count = pairs.len();
        for j in 0..count {
            let pair = pairs[count - 1 - j];
            if !held.has(pair.0) {
                return Ok(None);
            }
            held.put(pair.0, pair.1);
        }
        Ok(Some(held))
    }

    pub fn copy(&self, alloc: Global) -> Result<Held, Memory>
        ensures { IfOk result (λ h. h ≡ self.now) }
    {
        let keys = Vec::from_slice(alloc, self.keys.as_slice())?;
        let vars = Vec::from_slice(alloc, self.vars.as_slice())?;
        Ok(Held { keys, vars })
    }

    /// Whether the token has a place.
    pub fn has(&self, t: Tok) -> bool
        ensures { IsTrue result ↔ HasPlace self.now (tok_of t) }
    {
        match t {
            Tok::Key(k) => (k.0 as usize) < self.keys.len(),
            Tok::Var(v) => (v.0 as usize) < self.vars.len(),
        }
    }

    /// How many keys have places.
    pub fn key_count(&self) -> usize
        ensures { result ≡ length self.now.keys }
    {
        self.keys.len()
    }

    /// How many variables have places.
    pub fn var_count(&self) -> usize
        ensures { result ≡ length self.now.vars }
    {
        self.vars.len()
    }

    /// Whether all tokens but so many keys and variables are absent.
    pub fn has_only(&self, counts: TokenCounts) -> bool
        ensures { IsTrue result ↔ HasOnly counts.keys counts.vars (map_of self.now) }
    {
        all_absent_from(self.keys.as_slice(), counts.keys as usize)
            && all_absent_from(self.vars.as_slice(), counts.vars as usize)
    }

    /// Makes a place for the token, where it has none; the map says the same as before.
    pub fn reach(&mut self, t: Tok) -> Result<(), Memory>
        ensures place { OnOk result (HasPlace self.new (tok_of t)) }
        ensures same { map_of self.new ≡ map_of self.old }
    {
        match t {
            Tok::Key(k) => reach_to(&mut self.keys, k.0),
            Tok::Var(v) => reach_to(&mut self.vars, v.0),
        }
    }

    pub fn status(&self, t: Tok) -> Status
        requires { HasPlace self.now (tok_of t) }
        ensures { status_of result ≡ map_of self.now (tok_of t) }
    {
        match t {
            Tok::Key(k) => self.keys[k.0 as usize],
            Tok::Var(v) => self.vars[v.0 as usize],
        }
    }

    fn put(&mut self, t: Tok, s: Status)
        requires { HasPlace self.old (tok_of t) }
        ensures { self.new ≡ put_in self.old (tok_of t) s }
    {
        match t {
            Tok::Key(k) => self.keys[k.0 as usize] = s,
            Tok::Var(v) => self.vars[v.0 as usize] = s,
        }
    }

    /// Passes a row, if its token is as wanted.
    pub fn step(&mut self, row: Row) -> Result<(), TokenFault>
        requires { HasPlace self.old (tok_of row.tok) }
        ensures range { IsSameRange self.old self.new }
        ensures wanted { OnOk result (IsWanted (wanted_of row.wanted)
            (map_of self.old (tok_of row.tok))) }
        ensures passed { OnOk result (map_of self.new
            ≡ row_passed (row_of row) (map_of self.old)) }
        ensures same { OnErr result (self.new ≡ self.old) }
        ensures refused { IfErr result (IsTokenFault (row_of row) (map_of self.old)) }
    {
        let found = self.status(row.tok);
        if !is_wanted(row.wanted, found) {
            return Err(TokenFault {
                tok: row.tok,
                found,
                wanted: row.wanted,
            });
        }
        self.put(row.tok, changed(row.after, found));
        Ok(())
    }

    pub fn le(&self, o: &Held) -> bool
        requires { IsSameRange self.now o.now }
        ensures { IsTrue result ↔ IsBelow (map_of self.now) (map_of o.now) }
    {
        all_below(self.keys.as_slice(), o.keys.as_slice())
            && all_below(self.vars.as_slice(), o.vars.as_slice())
    }

    /// The first token at which this map isn't below the one that the pairs say, which may be a token that this one has no
    /// place for.
    pub fn first_apart(&self, pairs: &[(Tok, Status)]) -> Option<Apart>
        requires { AreInOrder pairs.now }
        ensures none { IfNone result (IsBelow (map_of self.now) (map_of_pairs pairs.now)) }
        ensures some { IfSome result (IsApart (map_of self.now) (map_of_pairs pairs.now)) }
    {
        match test_keys(self, pairs) {
            Err(apart) => Some(apart),
            Ok(at) => test_vars(self, pairs, at).err(),
        }
    }

    /// Whether both are the same.
    pub fn is_same(&self, o: &Held) -> bool
        ensures { IsTrue result ↔ (self.now ≡ o.now) }
    {
        all_same(self.keys.as_slice(), o.keys.as_slice())
            && all_same(self.vars.as_slice(), o.vars.as_slice())
    }

    /// The first token whose kinds differ, with both statuses.
    fn first_unlike(&self, o: &Held) -> Option<JoinFault>
        ensures none { IfNone result (IsAlikeMap self.now o.now) }
        ensures some { IfSome result (IsJoinFault (map_of self.now) (map_of o.now)) }
    {
        if let Some(i) = first_unlike(self.keys.as_slice(), o.keys.as_slice()) {
            return Some(JoinFault {
                tok: Tok::Key(KeyId(i as u32)),
                left: status_at(self.keys.as_slice(), i),
                right: status_at(o.keys.as_slice(), i),
            });
        }
        if let Some(i) = first_unlike(self.vars.as_slice(), o.vars.as_slice()) {
            return Some(JoinFault {
                tok: Tok::Var(VarId(i as u32)),
                left: status_at(self.vars.as_slice(), i),
                right: status_at(o.vars.as_slice(), i),
            });
        }
        None
    }

    /// Unites with the other map, and says whether this one grew. A token without a place is absent, so this one needs no
    /// more places.
    pub fn join(&mut self, o: &Held) -> Result<bool, JoinFault>
        ensures range { IsSameRange self.old self.new }
        ensures joined { OnOk result (IsJoin (map_of self.old) (map_of o.now) (map_of self.new)) }
        ensures grew { IfOk result (λ g. MatchBool g (gap self.new < gap self.old) (self.new
            ≡ self.old)) }
        ensures same { OnErr result (self.new ≡ self.old) }
        ensures refused { IfErr result (IsJoinFault (map_of self.old) (map_of o.now)) }
    {
        if let Some(fault) = self.first_unlike(o) {
            return Err(fault);
        }
        let keys = unite_all(self.keys.as_mut_slice(), o.keys.as_slice());
        let vars = unite_all(self.vars.as_mut_slice(), o.vars.as_slice());
        Ok(keys || vars)
    }
}
