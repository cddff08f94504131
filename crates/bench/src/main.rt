// The bench: a morning of four tasks and a slip, rehearsed on two machines with other cards, with everything in print.
#![tactic(auto)]

mod desk;
mod morning;

use cards::active_low::ActiveLow;
use cards::crossing::Crossing;
use cards::wear::Wear;
use cards::{Card, Packed};
use desk::Desk;
use events::{Event, Report};
use morning::Group;
use rehearsal::rehearse;
use std::array::from_fn;
use std::io;

type Inputs = Crossing<ActiveLow<Wear>>;

type Outputs = ActiveLow<Crossing<Packed>>;

// The card, with all lines off.
fn all_off<C: Card>(mut card: C) -> C {
    for line in 0..256 {
        card.write(line, false);
    }
    card
}

// Two lines of the inputs change contacts, and the home switch is active-low.
fn pile_of_inputs() -> Inputs {
    let mut card = Crossing::new(ActiveLow::new(Wear::new(), from_fn(|line| line == 3)));
    card.exchange(3, 8).unwrap();
    all_off(card)
}

fn pile_of_outputs() -> Outputs {
    let mut crossing = Crossing::new(Packed::new());
    crossing.exchange(4, 200).unwrap();
    all_off(ActiveLow::new(crossing, from_fn(|line| line == 5 || line == 9)))
}

// Rehearses the events in an order on two new machines, and prints what each event came to on both.
fn show(rt: &(impl Print + AllocGlobal), events: &[Event], order: &[usize]) -> io::Result<()> {
    let mut first = Desk::new(rt.alloc(), Packed::new(), Packed::new())?;
    let mut second = Desk::new(rt.alloc(), pile_of_inputs(), pile_of_outputs())?;
    let mut reports1 = vec![in rt.alloc(); Report::blank(); events.len()]?;
    let mut reports2 = reports1.clone()?;
    if let Err(no) = rehearse(
        &mut first.machine,
        &mut first.ram,
        &mut second.machine,
        &mut second.ram,
        events,
        order,
        &mut reports1,
        &mut reports2,
    ) {
        return println!(rt; "refused: {no}");
    }
    println!(rt; "-- in the given order, on packed cards")?;
    for (position, (event, report)) in events.iter().zip(&reports1).enumerate() {
        println!(rt; "{position} {}: {report}", event.ask)?;
    }
    println!(rt; "-- in the new order, on piles of wear, active-low and crossing cards")?;
    for (position, report) in order.iter().zip(&reports2) {
        if let Some(event) = events.get(*position) {
            println!(rt; "{position} {}: {report}", event.ask)?;
        }
    }
    println!(rt; "-- the cells of the first machine that differ from a new one")?;
    first.print_changed(rt)?;
    println!(rt; "-- the cells of the second machine that differ from a new one")?;
    second.print_changed(rt)
}

// A task meets a word that is no command, and another task is as it was.
fn slip(rt: &(impl Print + AllocGlobal)) -> io::Result<()> {
    let mut desk = Desk::new(rt.alloc(), Packed::new(), Packed::new())?;
    println!(rt; "-- a slip in task 1")?;
    for event in morning::slip() {
        desk.step(rt, event)?;
    }
    println!(rt; "-- task 0 before the turn of task 1")?;
    desk.print_task(rt, 0)?;
    desk.step(rt, morning::slip_turn())?;
    println!(rt; "-- task 0 after it")?;
    desk.print_task(rt, 0)
}

fn main(rt: HostRuntime) -> io::Result<()> {
    slip(&rt)?;
    let events = morning::events(rt.alloc())?;
    let order = morning::order(rt.alloc(), &events, Group::Homing)?;
    show(&rt, &events, &order)?;
    println!(rt;
        "-- an order with the pulse task after the homing task, which sets the flag that it waits for"
    )?;
    let apart = morning::order(rt.alloc(), &events, Group::Pulse)?;
    show(&rt, &events, &apart)
}
