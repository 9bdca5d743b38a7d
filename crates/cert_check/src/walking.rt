//! The tests of a body, in order.

ghost use Rattle.std.specs.Prelude.{◌≡◌, ◌||◌, ◌+◌, ◌<◌, ◌^◌, ◌∷◌, [], Some, None, map};
ghost use Rattle.vlt_core.specs.Flow.{size, size_block, size_stmts, size_arms, passes_block, passes_arms};
ghost use Rattle.vlt_core.specs.Flow as flows;
ghost use Rattle.vlt_core.specs.Maps.{map_after, away_row};
ghost use Rattle.vlt_core.specs.Local.{Then, only_if, rows_passed, leads, leads_block, leads_stmts};
ghost use Rattle.vlt_core.specs.HeldView.{toks_of};
ghost use Rattle.vlt_rows.specs.FlowView.{flow_view, arm_view, block_view, stmts_view, arms_view, rows_view};
ghost use Rattle.vlt_keyset.specs.Held.{map_of};
ghost use Rattle.vlt_flow.specs.Walks.{maybe_map, choice_of};
ghost use Rattle.cert_check.specs.Tests.{below_test, row_tests, below_tests, when_some, tests, block_tests, list_tests, arms_tests};
ghost use Rattle.cert_check.specs.Notes.{IsOrdered, annotation_of, map_at};
ghost use Rattle.cert_check.specs.Outcomes.{AreTested};
ghost use Rattle.cert_check.specs.declared.side.Side.TheVariants as side;
ghost use Rattle.cert_check.specs.Walks.{IsLed, IsWay, IsWayOf, way_tests, turn_tests, arm_tests, jump_side};

use crate::errors::Stop;
use crate::given::Given;
use crate::passing::{pass_gone, pass_rows};
use crate::points::{map_of_note, test_below};
use crate::side::Side;
use vlt_core::{Row, Tok};
use vlt_flow::count_form;
use vlt_keyset::Held;
use vlt_rows::{Flow, FlowArm, FlowBlock, FlowStmt};

/// The map after a part, if its end is reached, and the number of the next statement.
#[derive(Drop)]
pub struct Walked {
    pub held: Option<Held>,
    pub at: usize,
}

/// Whether a way can be passed, and the number of the next statement.
#[derive(Clone, Copy)]
pub struct Way {
    pub passes: bool,
    pub at: usize,
}

/// The statement `at` is reached with this map.
fn comes(held: Held, at: usize) -> Walked
    ensures held { result.held ≡ Some held }
    ensures at { result.at ≡ at }
{
    Walked {
        held: Some(held),
        at,
    }
}

/// The statement `at` isn't reached.
fn stops(at: usize) -> Walked
    ensures held { result.held ≡ None }
    ensures at { result.at ≡ at }
{
    Walked { held: None, at }
}

fn either(a: bool, b: bool) -> bool
    ensures { result ≡ (a || b) }
{
    a || b
}

fn pass(held: Held, statement: usize, rows: &[Row]) -> Result<Held, Stop>
    ensures { AreTested result (row_tests statement (rows_view rows.now) (map_of held))
        (λ h. map_of h ≡ map_after (rows_view rows.now) (map_of held)) }
{
    let mut held = held;
    pass_rows(&mut held, statement, rows)?;
    Ok(held)
}

/// The map after a choice, if one of its ways can be passed.
fn following(given: &Given<'_>, n: usize, way: Way) -> Result<Walked, Stop>
    requires { IsOrdered given.now }
    ensures { AreTested result []
        (IsLed (only_if way.passes (map_at side.Following (annotation_of given.now) n)) way.at) }
{
    if way.passes {
        let exit = map_of_note(given, Side::Following, n)?;
        Ok(comes(exit, way.at))
    } else {
        Ok(stops(way.at))
    }
}

/// The rows at the end of a part, if it is reached.
fn leave_rows(walked: Walked, statement: usize, rows: &[Row]) -> Result<Walked, Stop>
    ensures { AreTested result
        (when_some (maybe_map walked.held) (row_tests statement (rows_view rows.now)))
        (IsLed (rows_passed (rows_view rows.now) (maybe_map walked.held)) walked.at) }
{
    let Walked { held, at } = walked;
    match held {
        None => Ok(stops(at)),
        Some(mut end) => {
            pass_rows(&mut end, statement, rows)?;
            Ok(comes(end, at))
        }
    }
}

fn leave_gone(walked: Walked, statement: usize, toks: &[Tok]) -> Result<Walked, Stop>
    ensures { AreTested result
        (when_some (maybe_map walked.held) (row_tests statement (map away_row (toks_of toks.now))))
        (IsLed (rows_passed (map away_row (toks_of toks.now)) (maybe_map walked.held)) walked.at) }
{
    let Walked { held, at } = walked;
    match held {
        None => Ok(stops(at)),
        Some(mut end) => {
            pass_gone(&mut end, statement, toks)?;
            Ok(comes(end, at))
        }
    }
}

/// The map at the end of a way, if it is reached, is to lie below that of the statement k.
fn test_end(given: &Given<'_>, side: Side, k: usize, walked: Walked) -> Result<Way, Stop>
    requires { IsOrdered given.now }
    ensures { AreTested result
        (below_tests k (maybe_map walked.held) (map_at side (annotation_of given.now) k))
        (IsWayOf (maybe_map walked.held) walked.at) }
{
    let Walked { held, at } = walked;
    match held {
        None => Ok(Way { passes: false, at }),
        Some(end) => {
            test_below(given, side, k, k, &end)?;
            Ok(Way { passes: true, at })
        }
    }
}

/// The map at the head of the loop n, below which the map is to lie.
fn enter(given: &Given<'_>, n: usize, held: Held) -> Result<Held, Stop>
    requires { IsOrdered given.now }
    ensures { AreTested result
        (below_test n (map_of held) (map_at side.Around (annotation_of given.now) n) ∷ [])
        (λ h. map_of h ≡ map_at side.Around (annotation_of given.now) n) }
{
    test_below(given, Side::Around, n, n, &held)?;
    map_of_note(given, Side::Around, n)
}

/// The map of a loop that a jump leads to.
fn side_of(continues: bool) -> Side
    ensures { result ≡ jump_side continues }
{
    if continues {
        Side::Around
    } else {
        Side::Following
    }
}

/// A jump leads to a map of the loop l.
fn jump(
    given: &Given<'_>,
    continues: bool,
    left: &[Tok],
    l: Option<usize>,
    n: usize,
    held: Held,
) -> Result<(), Stop>
    requires { IsOrdered given.now }
    ensures { AreTested result
        (tests (annotation_of given.now) l n (map_of held)
        (flows.jump continues (toks_of left.now)))
        (λ u. Unit {0}) }
{
    let mut held = held;
    pass_gone(&mut held, n, left)?;
    match l {
        None => Err(Stop::Unfit),
        Some(l) => test_below(given, side_of(continues), l, n, &held),
    }
}

/// The rows and the block of a way, and its end, which is to lie below the map of the statement k.
#[cycle(testing)]
fn test_way(
    given: &Given<'_>,
    body: &FlowBlock,
    l: Option<usize>,
    side: Side,
    k: usize,
    n: usize,
    held: Held,
) -> Result<Way, Stop>
    requires order { IsOrdered given.now }
    requires few { n + size_block (block_view body.now) < 2 ^ 62 }
    ensures { AreTested result
        (way_tests (annotation_of given.now) l side k n (map_of held) (block_view body.now))
        (IsWay (passes_block (block_view body.now)) (n + size_block (block_view body.now))) }
{
    let walked = test_block(given, body, l, k, n, held)?;
    test_end(given, side, k, walked)
}

/// The two blocks of the choice n, one after another.
#[cycle(testing)]
fn test_if(
    given: &Given<'_>,
    rows: &[Row],
    then_block: &FlowBlock,
    else_block: &FlowBlock,
    l: Option<usize>,
    n: usize,
    held: Held,
) -> Result<Walked, Stop>
    requires order { IsOrdered given.now }
    requires few { n + size (choice_of rows.now then_block.now else_block.now) < 2 ^ 62 }
    ensures { AreTested result (tests (annotation_of given.now) l n (map_of held)
        (choice_of rows.now then_block.now else_block.now))
        (IsLed (leads (annotation_of given.now) n (map_of held)
        (choice_of rows.now then_block.now else_block.now))
        (n + size (choice_of rows.now then_block.now else_block.now))) }
{
    let inside = pass(held, n, rows)?;
    let other = inside.copy(given.alloc)?;
    let first = test_way(given, then_block, l, Side::Following, n, n + 1, inside)?;
    let second = test_way(given, else_block, l, Side::Following, n, first.at, other)?;
    let way = Way {
        passes: either(first.passes, second.passes),
        at: second.at,
    };
    following(given, n, way)
}

/// The rows, the body and the way back of the loop n, from the map at its head.
#[cycle(testing)]
fn test_turn(
    given: &Given<'_>,
    rows: &[Row],
    body: &FlowBlock,
    n: usize,
    head: Held,
) -> Result<usize, Stop>
    requires order { IsOrdered given.now }
    requires few { n + 1 + size_block (block_view body.now) < 2 ^ 62 }
    ensures { AreTested result
        (turn_tests (annotation_of given.now) n (map_of head) (rows_view rows.now)
        (block_view body.now))
        (λ m. m ≡ n + 1 + size_block (block_view body.now)) }
{
    let inside = pass(head, n, rows)?;
    test_below(given, Side::Following, n, n, &inside)?;
    let way = test_way(given, body, Some(n), Side::Around, n, n + 1, inside)?;
    Ok(way.at)
}

#[cycle(testing)]
fn test_loop(
    given: &Given<'_>,
    rows: &[Row],
    body: &FlowBlock,
    l: Option<usize>,
    n: usize,
    held: Held,
) -> Result<Walked, Stop>
    requires order { IsOrdered given.now }
    requires few { n + 1 + size_block (block_view body.now) < 2 ^ 62 }
    ensures { AreTested result (tests (annotation_of given.now) l n (map_of held)
        (flows.loop (rows_view rows.now) (block_view body.now)))
        (IsLed (Some (map_at side.Following (annotation_of given.now) n))
        (n + 1 + size_block (block_view body.now))) }
{
    let head = enter(given, n, held)?;
    let at = test_turn(given, rows, body, n, head)?;
    let exit = map_of_note(given, Side::Following, n)?;
    Ok(comes(exit, at))
}

/// An arm of the choice n, after those before it.
#[cycle(testing)]
fn test_arm(
    given: &Given<'_>,
    arm: &FlowArm,
    l: Option<usize>,
    n: usize,
    way: Way,
    held: &Held,
) -> Result<Way, Stop>
    requires order { IsOrdered given.now }
    requires few { way.at + size_block (arm_view arm.now).1 < 2 ^ 62 }
    ensures { AreTested result
        (arm_tests (annotation_of given.now) l n way.at (map_of held.now) (arm_view arm.now))
        (IsWay (way.passes || passes_block (arm_view arm.now).1)
        (way.at + size_block (arm_view arm.now).1)) }
{
    let own = held.copy(given.alloc)?;
    let inside = pass(own, n, arm.rows.as_slice())?;
    let next = test_way(given, &arm.body, l, Side::Following, n, way.at, inside)?;
    Ok(Way {
        passes: either(way.passes, next.passes),
        at: next.at,
    })
}

/// The arms of the choice n, one after another.
#[cycle(testing)]
fn test_arms(
    given: &Given<'_>,
    arms: &[FlowArm],
    l: Option<usize>,
    n: usize,
    held: &Held,
) -> Result<Way, Stop>
    requires order { IsOrdered given.now }
    requires few { n + 1 + size_arms (arms_view arms.now) < 2 ^ 62 }
    ensures { AreTested result
        (arms_tests (annotation_of given.now) l n (n + 1) (map_of held.now)
        (arms_view arms.now) (map_at side.Following (annotation_of given.now) n))
        (IsWay (passes_arms (arms_view arms.now)) (n + 1 + size_arms (arms_view arms.now))) }
{
    let mut way = Way {
        passes: false,
        at: n + 1,
    };
    for arm in arms {
        way = test_arm(given, arm, l, n, way, held)?;
    }
    Ok(way)
}

/// Tests the statement n, in the loop l.
#[cycle(testing)]
fn test_form(
    given: &Given<'_>,
    form: &Flow,
    l: Option<usize>,
    n: usize,
    held: Held,
) -> Result<Walked, Stop>
    requires order { IsOrdered given.now }
    requires few { n + size (flow_view form.now) < 2 ^ 62 }
    ensures { AreTested result
        (tests (annotation_of given.now) l n (map_of held) (flow_view form.now))
        (IsLed (leads (annotation_of given.now) n (map_of held) (flow_view form.now))
        (n + size (flow_view form.now))) }
{
    match form {
        Flow::Step { rows } => {
            let held = pass(held, n, rows.as_slice())?;
            Ok(comes(held, n + 1))
        }
        Flow::If {
            rows,
            then_block,
            else_block,
        } => {
            let rows = rows.as_slice();
            test_if(given, rows, then_block, else_block, l, n, held)
        }
        Flow::While { rows, body } => { test_loop(given, rows.as_slice(), body, l, n, held) }
        Flow::Switch { rows, arms, end } => {
            let inside = pass(held, n, rows.as_slice())?;
            let way = test_arms(given, arms.as_slice(), l, n, &inside)?;
            following(given, n, way)
        }
        Flow::Scope { body } => test_block(given, body, l, n, n + 1, held),
        Flow::Focus { rows, body, after } => {
            let inside = pass(held, n, rows.as_slice())?;
            let walked = test_block(given, body, l, n, n + 1, inside)?;
            leave_rows(walked, n, after.as_slice())
        }
        Flow::Return { rows } => {
            let _end = pass(held, n, rows.as_slice())?;
            Ok(stops(n + 1))
        }
        Flow::Jump { continues, left } => {
            jump(given, *continues, left.as_slice(), l, n, held)?;
            Ok(stops(n + 1))
        }
    }
}

/// Tests a block from the statement n on; the rows of its end belong to the statement `of`.
#[cycle(testing)]
pub fn test_block(
    given: &Given<'_>,
    block: &FlowBlock,
    l: Option<usize>,
    of: usize,
    n: usize,
    held: Held,
) -> Result<Walked, Stop>
    requires order { IsOrdered given.now }
    requires few { n + size_block (block_view block.now) < 2 ^ 62 }
    ensures { AreTested result
        (block_tests (annotation_of given.now) l of n (map_of held) (block_view block.now))
        (IsLed (leads_block (annotation_of given.now) n (map_of held) (block_view block.now))
        (n + size_block (block_view block.now))) }
{
    let walked = test_list(given, block.stmts.as_slice(), l, n, held)?;
    leave_gone(walked, of, block.bound.as_slice())
}

/// One statement after what was tested before it.
#[cycle(testing)]
fn test_on(given: &Given<'_>, form: &Flow, l: Option<usize>, flow: Walked) -> Result<Walked, Stop>
    requires order { IsOrdered given.now }
    requires few { flow.at + size (flow_view form.now) < 2 ^ 62 }
    ensures { AreTested result (when_some (maybe_map flow.held)
        (λ m. tests (annotation_of given.now) l flow.at m (flow_view form.now)))
        (IsLed (Then (maybe_map flow.held)
        (λ m. leads (annotation_of given.now) flow.at m (flow_view form.now)))
        (flow.at + size (flow_view form.now))) }
{
    let Walked { held, at } = flow;
    match held {
        None => match count_form(form) {
            Ok(more) => Ok(stops(at + more)),
            Err(_) => unreachable!(),
        },
        Some(held) => test_form(given, form, l, at, held),
    }
}

#[cycle(testing)]
fn test_list(
    given: &Given<'_>,
    stmts: &[FlowStmt],
    l: Option<usize>,
    n: usize,
    held: Held,
) -> Result<Walked, Stop>
    requires order { IsOrdered given.now }
    requires few { n + size_stmts (stmts_view stmts.now) < 2 ^ 62 }
    ensures { AreTested result
        (list_tests (annotation_of given.now) l n (map_of held) (stmts_view stmts.now))
        (IsLed (leads_stmts (annotation_of given.now) n (map_of held) (stmts_view stmts.now))
        (n + size_stmts (stmts_view stmts.now))) }
{
    let mut flow = comes(held, n);
    for s in stmts {
        flow = test_on(given, &s.flow, l, flow)?;
    }
    Ok(flow)
}
