//! What heads become.

ghost use Rattle.std.specs.Prelude.{◌≡◌, ◌≤◌, [], None, map, option_map, length, IfOk};
ghost use Rattle.vlt_syntax.specs.View as view;
ghost use Rattle.vlt_core.specs.View as core_view;
ghost use Rattle.vlt_core.specs.Core as core;
ghost use Rattle.vlt_kinds_types.specs.Files.{number_of};
ghost use Rattle.vlt_kinds_types.specs.Types.{known_states};
ghost use Rattle.vlt_kinds_types.specs.Seen.{file_seen, states_seen};
ghost use Rattle.vlt_kinds_heads.specs.Phase as q;
ghost use Rattle.vlt_kinds_heads.specs.Seen.{keys_seen};

use crate::facts::{Facts, Typing};
use crate::keys::HeadKeys;
use crate::places::{clause_in, entry_key};
use std::alloc::{AllocError, Global};
use vlt_base::{Items, KeyId, StateSet, TypeId};
use vlt_core::{Entry, Func, KeyDecl, Mode, Ty, VarDecl};
use vlt_kinds_types::{File, KeyNumbers, StateNames, some_states_listed};
use vlt_syntax::{self, Head, Name, Parameter, ResultType, States};

fn number_in(facts: Option<Facts>) -> u32
    ensures { result ≡ q.number_in facts }
{
    match facts {
        None => 0,
        Some(facts) => facts.number,
    }
}

impl KeyNumbers for HeadKeys<'_> {
    ghost numbers = { λ h. q.key_number (keys_seen h) };

    fn number(&self, key: &[u8]) -> u32 {
        number_in(self.find(key))
    }
}

fn key_type(typing: Option<Typing>) -> Option<TypeId>
    ensures { option_map (λ t. t.0) result ≡ option_map (λ t. t.type_id) typing }
{
    match typing {
        None => None,
        Some(typing) => Some(TypeId(typing.type_id)),
    }
}

fn key_decls(alloc: Global, keys: &HeadKeys<'_>) -> Result<Items<KeyDecl>, AllocError>
    ensures { IfOk result (λ decls. map core_view.key_of decls
        ≡ map q.key_decl (keys_seen keys.now)) }
{
    let mut decls = Items::new(alloc);
    for (name, facts) in keys.table.iter() {
        let name = Items::from_slice(alloc, name)?;
        decls.push(KeyDecl {
            name,
            key_type: key_type(facts.typing),
        })?;
    }
    Ok(decls)
}

fn typed_states<'a>(file: &'a File<'_>, typing: Option<Typing>) -> StateNames<'a>
    ensures { states_seen result ≡ q.typed_states (file_seen file.now) typing }
{
    match typing {
        None => StateNames { names: None },
        Some(had) => file.state_names(file.shape_at(had.type_id)),
    }
}

fn states_named(
    alloc: Global,
    known: &StateNames<'_>,
    states: &Option<States>,
) -> Result<Option<StateSet>, AllocError>
    ensures { IfOk result (λ set. core_view.states_of set
        ≡ q.states_named (states_seen known.now) (option_map view.states_of states.now)) }
{
    match states {
        None => Ok(None),
        Some(states) => Ok(Some(some_states_listed(alloc, known, states)?)),
    }
}

impl HeadKeys<'_> {
    fn key_id(&self, key: &Name) -> KeyId
        ensures { result.0 ≡ q.key_number (keys_seen self.now) (view.name_of key.now).text }
    {
        KeyId(number_in(self.find(key.text.as_slice())))
    }

    fn bound_entry(&self, known: &StateNames<'_>, key: &Name, state: &Name) -> Entry
        ensures { core_view.entry_of result ≡ record {
          mode = core.up_to (number_of (known_states (states_seen known.now))
              (view.name_of state.now));
          key = q.key_number (keys_seen self.now) (view.name_of key.now).text;
          before = None;
          after = None;
        } }
    {
        Entry {
            mode: Mode::Bound(known.number(state).unwrap_or(0)),
            key: self.key_id(key),
            before: None,
            after: None,
        }
    }

    fn core_entry_in(
        &self,
        alloc: Global,
        known: &StateNames<'_>,
        entry: &vlt_syntax::Entry,
    ) -> Result<Entry, AllocError>
        ensures { IfOk result (λ made. core_view.entry_of made
            ≡ q.core_entry_in (keys_seen self.now) (states_seen known.now)
            (view.entry_of entry.now)) }
    {
        match entry {
            vlt_syntax::Entry::Held(states) => {
                let set = states_named(alloc, known, &states.states)?;
                Ok(Entry {
                    mode: Mode::Kept,
                    key: self.key_id(&states.key),
                    before: set,
                    after: set,
                })
            }
            vlt_syntax::Entry::Changed { key, before, after } => {
                let before = some_states_listed(alloc, known, before)?;
                let after = some_states_listed(alloc, known, after)?;
                let key = self.key_id(key);
                Ok(Entry {
                    mode: Mode::Kept,
                    key,
                    before: Some(before),
                    after: Some(after),
                })
            }
            vlt_syntax::Entry::Bound { key, state, .. } => Ok(self.bound_entry(known, key, state)),
            vlt_syntax::Entry::Taken(states, _) => {
                let before = states_named(alloc, known, &states.states)?;
                Ok(Entry {
                    mode: Mode::Taken,
                    key: self.key_id(&states.key),
                    before,
                    after: None,
                })
            }
            vlt_syntax::Entry::Given(states, _) => {
                let after = states_named(alloc, known, &states.states)?;
                Ok(Entry {
                    mode: Mode::Given,
                    key: self.key_id(&states.key),
                    before: None,
                    after,
                })
            }
            vlt_syntax::Entry::Fresh(states, _) => {
                let after = states_named(alloc, known, &states.states)?;
                Ok(Entry {
                    mode: Mode::New,
                    key: self.key_id(&states.key),
                    before: None,
                    after,
                })
            }
        }
    }

    #[tactic(auto, unfolding(crate::specs::Phase::core_entry))]
    fn core_entry(
        &self,
        alloc: Global,
        file: &File<'_>,
        entry: &vlt_syntax::Entry,
    ) -> Result<Entry, AllocError>
        ensures { IfOk result (λ made. core_view.entry_of made
            ≡ q.core_entry (file_seen file.now) (keys_seen self.now) (view.entry_of entry.now)) }
    {
        let facts = self.facts_of(entry_key(entry).text.as_slice())?;
        let known = typed_states(file, facts.typing);
        self.core_entry_in(alloc, &known, entry)
    }

    fn core_clause(
        &self,
        alloc: Global,
        file: &File<'_>,
        clause: &[vlt_syntax::Entry],
    ) -> Result<Items<Entry>, AllocError>
        ensures { IfOk result (λ made. map core_view.entry_of made
            ≡ map (q.core_entry (file_seen file.now) (keys_seen self.now))
            (map view.entry_of clause.now)) }
    {
        let mut made = Items::new(alloc);
        for entry in clause {
            made.push(self.core_entry(alloc, file, entry)?)?;
        }
        Ok(made)
    }

    fn core_result(
        &self,
        alloc: Global,
        file: &File<'_>,
        result_type: &ResultType,
    ) -> Result<Option<Ty>, AllocError>
        ensures { IfOk result (λ made. option_map core_view.ty_of made
            ≡ q.core_result (file_seen file.now) (keys_seen self.now)
            (view.result_type_of result_type.now)) }
    {
        match result_type {
            ResultType::Void(_) => Ok(None),
            ResultType::Value(ty) => Ok(Some(file.core_type(alloc, self, ty)?)),
        }
    }

    fn core_parameter(
        &self,
        alloc: Global,
        file: &File<'_>,
        parameter: &Parameter,
    ) -> Result<VarDecl, AllocError>
        ensures { IfOk result (λ made. core_view.var_of made
            ≡ q.core_parameter (file_seen file.now) (keys_seen self.now)
            (view.parameter_of parameter.now)) }
    {
        let name = Items::from_slice(alloc, parameter.name.text.as_slice())?;
        let ty = file.core_type(alloc, self, &parameter.ty)?;
        Ok(VarDecl { name, ty })
    }

    fn core_parameters(
        &self,
        alloc: Global,
        file: &File<'_>,
        parameters: &[Parameter],
    ) -> Result<Items<VarDecl>, AllocError>
        ensures { IfOk result (λ made. map core_view.var_of made
            ≡ map (q.core_parameter (file_seen file.now) (keys_seen self.now))
            (map view.parameter_of parameters.now)) }
    {
        let mut made = Items::new(alloc);
        for parameter in parameters {
            made.push(self.core_parameter(alloc, file, parameter)?)?;
        }
        Ok(made)
    }

    /// The function of this head, with an empty body.
    #[tactic(auto, unfolding(crate::specs::Phase::core_head))]
    pub fn core_head(
        &self,
        alloc: Global,
        file: &File<'_>,
        external: bool,
        head: &Head,
    ) -> Result<Func, AllocError>
        requires { length head.now.parameters ≤ 16 }
        ensures { IfOk result (λ func. core_view.func_of func
            ≡ q.core_head (file_seen file.now) external (view.head_of head.now)
            (keys_seen self.now)) }
    {
        let name = Items::from_slice(alloc, head.name.text.as_slice())?;
        let clause = self.core_clause(alloc, file, clause_in(&head.clause))?;
        let keys = key_decls(alloc, self)?;
        let vars = self.core_parameters(alloc, file, head.parameters.as_slice())?;
        let result = self.core_result(alloc, file, &head.result_type)?;
        let params = head.parameters.len() as u32;
        let body = Items::new(alloc);
        Ok(Func {
            name,
            external,
            result,
            params,
            clause,
            keys,
            vars,
            body,
            end: 0,
        })
    }
}
