//! The last line of a run for a host: what the host holds.

ghost use Rattle.std.specs.Prelude.{◌≡◌, ◌≤◌, ◌++◌, List, OnOk, OnErr};
ghost use Rattle.std.specs.Option.{option_map};
ghost use Rattle.vlt_io.specs.Outside.{Rose, Grew, GrewByPart};
ghost use Rattle.vlt_core.specs.View.{program_of};
ghost use Rattle.vlt_meaning.specs.World.{Object, object_text};
ghost use Rattle.vlt_host_meaning.specs.Lines.{held_line, state_text};
ghost use Rattle.vlt_host.specs.Machine.HostMachine.{IsHosted, ShowsObjects};
ghost use Rattle.vlt_host.specs.Runs.HeldLine.{named_state};

use crate::machine::{HeldObject, HostMachine};
use itoa::Buffer;
use vlt_base::TypeId;
use vlt_core::{Program, TypeDecl};
use vlt_io::{Sink, SinkFailed};

/// The name of a state of the type's objects, where it has a set of states.
fn state_name(program: &Program, type_id: TypeId, state: u8) -> Option<&[u8]>
    ensures { (o : Object) → o.type ≡ type_id.0 → o.state ≡ state →
        state_text (program_of program.now) o ≡ named_state (option_map (λ n. n.now) result) }
{
    let set = match program.types.get(type_id.0 as usize)? {
        TypeDecl::Abstract { set, .. } => *set,
        TypeDecl::Struct { set, .. } => *set,
        TypeDecl::Variant { .. } => None,
    };
    let d = program.sets.get(set?.0 as usize)?;
    let name = d.states.get(state as usize)?;
    Some(name.as_slice())
}

/// The number of an object, from 1, after a blank and `#`; and its state after `@`, where its type has states.
///
/// # Errors
///
/// `SinkFailed` where the sink did not take all.
fn write_object<K: Sink>(
    program: &Program,
    object: HeldObject,
    sink: &mut K,
) -> Result<(), SinkFailed>
    ensures ok { (o : Object) → o.type ≡ object.type_id.0 → o.state ≡ object.state →
        OnOk result (Grew (K.written sink.old) (K.written sink.new)
        (object_text object.position ++ state_text (program_of program.now) o)) }
    ensures part { (o : Object) → o.type ≡ object.type_id.0 → o.state ≡ object.state →
        OnErr result (GrewByPart (K.written sink.old) (K.written sink.new)
        (object_text object.position ++ state_text (program_of program.now) o)) }
    ensures failed { OnErr result (Rose (K.faults sink.old) (K.faults sink.new)) }
    ensures counted { K.faults sink.old ≤ K.faults sink.new }
{
    let mut digits = Buffer::new();
    sink.write(b" #")?;
    sink.write(digits.format(u128::from(object.position) + 1).as_bytes())?;
    match state_name(program, object.type_id, object.state) {
        None => Ok(()),
        Some(name) => {
            sink.write(b"@")?;
            sink.write(name)
        }
    }
}

/// The line of what the host holds, in pieces.
///
/// # Errors
///
/// `SinkFailed` where the sink did not take all.
pub fn write_held<K: Sink>(
    machine: &HostMachine<'_>,
    program: &Program,
    sink: &mut K,
) -> Result<(), SinkFailed>
    requires hosted { IsHosted machine.now }
    requires shows { (objects : List Object) × ShowsObjects machine.now objects }
    ensures ok { (objects : List Object) → ShowsObjects machine.now objects →
        OnOk result (Grew (K.written sink.old) (K.written sink.new)
        (held_line (program_of program.now) objects)) }
    ensures part { (objects : List Object) → ShowsObjects machine.now objects →
        OnErr result (GrewByPart (K.written sink.old) (K.written sink.new)
        (held_line (program_of program.now) objects)) }
    ensures failed { OnErr result (Rose (K.faults sink.old) (K.faults sink.new)) }
    ensures counted { K.faults sink.old ≤ K.faults sink.new }
{
    sink.write(b"held")?;
    let mut index = 0;
    while let Some(object) = machine.held(index) {
        write_object(program, object, sink)?;
        index += 1;
    }
    sink.write(b"\n")
}
