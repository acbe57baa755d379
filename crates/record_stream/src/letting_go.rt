// What the events of a block let go, where events are put in their places.
ghost use Rattle.std.specs.{Prelude.{◌≡◌, ◌+◌, ◌-◌, ◌<◌, ◌≤◌, ◌++◌, [], true, length, drop}, Option.option_to_list};
ghost use Rattle.{tally_base.specs.Columns.{count, sorted, gathered}, record_stream.specs.{Blocks.PutsAfter, Keeping.IsKeeping, LettingGo.{CanLetGo, IsFull, LetsBlockGo}}};

use crate::walk::Walk;
use arrayvec::ArrayVec;
use settle::Settle;
use tally_base::{Block, Event, TABLE_BLOCK};

/// Puts an event after the others, if there is one.
#[inline(always)]
fn push_some(block: &mut Block<TABLE_BLOCK>, event: Option<Event>)
    requires { length (gathered block.old) < TABLE_BLOCK }
    ensures { PutsAfter block.old block.new (option_to_list event) }
{
    if let Some(event) = event {
        block.push(&event);
    }
}

/// Puts events after the others.
#[inline(always)]
fn push_all(block: &mut Block<TABLE_BLOCK>, events: &[Event])
    requires { length (gathered block.old) + length events.now ≤ TABLE_BLOCK }
    ensures { PutsAfter block.old block.new events.now }
{
    for event in events {
        block.push(event);
    }
}

/// Puts events after the others.
#[inline(always)]
fn stay_all(stay: &mut ArrayVec<Event, 64>, events: &[Event])
    requires { length stay.old.items + length events.now ≤ 64 }
    ensures { stay.new.items ≡ stay.old.items ++ events.now }
{
    for event in events {
        stay.push(*event);
    }
}

/// Puts the events of a block from one on after the others.
#[inline(always)]
fn stay_back(stay: &mut ArrayVec<Event, 64>, block: &Block<TABLE_BLOCK>, from: usize)
    requires inside { from ≤ count block.now }
    requires room { length stay.old.items + (count block.now - from) ≤ 64 }
    ensures { stay.new.items ≡ stay.old.items ++ drop from (gathered block.now) }
{
    for at in from..block.len() {
        stay.push(block.event(at));
    }
}

/// Whether as many events are kept back as may be, and none of them is later than the greatest time so far.
#[inline(always)]
fn is_full(walk: &Walk, settle: &Settle) -> bool
    requires { IsKeeping walk.now settle.now }
    ensures { result ≡ true → IsFull walk.now settle.now }
{
    match settle.waiting().last() {
        Some(last) => {
            settle.held() == walk.policy.settle as usize && last.time <= walk.clock.greatest()
        }
        None => false,
    }
}

/// Takes the events of a block at once, where they come after as many that are kept back as may be, and puts those that
/// are let go with them into another. What stays is written to an array first.
fn pass_block(
    walk: &Walk,
    block: &Block<TABLE_BLOCK>,
    settle: &mut Settle,
    out: &mut Block<TABLE_BLOCK>,
    stay: &mut ArrayVec<Event, 64>,
)
    requires can { CanLetGo walk.now settle.old (gathered block.now) }
    requires full { IsFull walk.now settle.old }
    requires none { (gathered out.old ≡ []) × (sorted out.old ≡ 0) }
    ensures { LetsBlockGo walk.now settle.old settle.new block.now out.new }
{
    let len = block.len();
    if len == 0 {
        return;
    }
    let from = len - len.min(settle.held());
    let (gone, rest) = settle.waiting().split_at(len - from);
    push_all(out, gone);
    out.push_front(block, from);
    stay.clear();
    stay_all(stay, rest);
    stay_back(stay, block, from);
    settle.pass(
        stay.as_slice(),
        out.time(len - 1),
        block.event(len - 1).place,
    );
}

/// Takes the events of a block, all in order and none late, and puts those that are let go with them into
/// another, in place of its own. It has an array for those that stay.
pub(crate) fn let_go(
    walk: &Walk,
    block: &Block<TABLE_BLOCK>,
    settle: &mut Settle,
    out: &mut Block<TABLE_BLOCK>,
    stay: &mut ArrayVec<Event, 64>,
)
    requires { CanLetGo walk.now settle.old (gathered block.now) }
    ensures { LetsBlockGo walk.now settle.old settle.new block.now out.new }
{
    out.clear();
    if is_full(walk, settle) {
        return pass_block(walk, block, settle, out, stay);
    }
    for at in 0..block.len() {
        let settled = settle.push(block.event(at));
        push_some(out, settled.emitted);
    }
}
