#![tactic(auto)]

// Every order of seven events that keeps the clashing pairs, tried: the law of order, seen once.
#[cfg(test)]
mod tests {
    use cards::active_low::ActiveLow;
    use cards::crossing::Crossing;
    use cards::wear::Wear;
    use cards::{Card, Packed};
    use events::{Ask, Event, Report, run};
    use machine::Machine;
    use rehearsal::{Objection, is_order, rehearse};
    use std::array::from_fn;
    use std::process::Abort;
    use std::test::Fail;

    type Plain = Machine<Packed, Packed>;

    type Piled = Machine<ActiveLow<Packed>, Crossing<Wear>>;

    fn place(address: u16, word: u16) -> Ask {
        Ask::Place { address, word }
    }

    // Task 0 switches output 4 on, off, and inverts it; task 1 halts until input 8 is on; task 2 inverts flag 7.
    fn set_up() -> [Event; 13] {
        [
            place(0x10, 0x12CD),
            place(0x11, 0x0400),
            place(0x12, 0x13CD),
            place(0x13, 0x0400),
            place(0x14, 0x14CD),
            place(0x15, 0x0400),
            place(0x20, 0x15CC),
            place(0x21, 0x0800),
            place(0x30, 0x14CE),
            place(0x31, 0x0700),
            Ask::Start {
                task: 0,
                address: 0x10,
            },
            Ask::Start {
                task: 1,
                address: 0x20,
            },
            Ask::Start {
                task: 2,
                address: 0x30,
            },
        ]
        .map(Event::from)
    }

    // The turns of task 0 clash with one another, and the feed with the turn of task 1: 420 of the 5,040 orders keep both.
    fn seven() -> [Event; 7] {
        [
            Ask::Turn { task: 0 },
            Ask::Turn { task: 1 },
            Ask::Turn { task: 0 },
            Ask::Feed { line: 8, on: true },
            Ask::Turn { task: 2 },
            Ask::Turn { task: 0 },
            Ask::Tick,
        ]
        .map(Event::from)
    }

    fn low_card() -> ActiveLow<Packed> {
        let mut card = ActiveLow::new(Packed::new(), from_fn(|line| line == 8));
        card.write(8, false);
        card
    }

    fn crossed_card() -> Crossing<Wear> {
        let mut card = Crossing::new(Wear::new());
        card.exchange(4, 77).unwrap();
        card
    }

    // Seven digits below seven.
    fn digits(number: u32) -> [usize; 7] {
        let mut rest = number;
        from_fn(|_| {
            let digit = (rest % 7) as usize;
            rest /= 7;
            digit
        })
    }

    // Whether report k of the second run is that of the event at position order[k] in the first.
    fn same_reports(order: &[usize], first: &[Report], second: &[Report]) -> bool {
        order.iter().enumerate().all(|(k, position)| {
            second.get(k).is_some() && first.get(*position) == second.get(k)
        })
    }

    // Whether the order is kept; and then that both runs came to the same.
    fn try_order(rt: &impl Abort, order: &[usize]) -> Result<bool, Fail> {
        let mut ram1 = [0u16; 256];
        let mut ram2 = [0u16; 256];
        let mut first: Plain = Machine::new(Packed::new(), Packed::new());
        let mut second: Piled = Machine::new(low_card(), crossed_card());
        let mut reports1 = [Report::blank(); 13];
        let mut reports2 = [Report::blank(); 13];
        run(&mut first, &mut ram1, &set_up(), &mut reports1)?;
        run(&mut second, &mut ram2, &set_up(), &mut reports2)?;
        match rehearse(
            &mut first,
            &mut ram1,
            &mut second,
            &mut ram2,
            &seven(),
            order,
            &mut reports1,
            &mut reports2,
        ) {
            Ok(()) => {
                assert!(rt; same_reports(order, &reports1, &reports2), "reports");
                assert!(rt; first.same_cells(&ram1, &second, &ram2), "cells");
                Ok(true)
            }
            Err(Objection::Swaps(swap)) => {
                assert!(rt; swap.first < swap.second, "an earlier and a later event");
                Ok(false)
            }
            Err(no) => Err(Fail::from(no)),
        }
    }

    #[test]
    fn every_order(rt: HostRuntime) -> Result<(), Fail> {
        let orders: Vec<[usize; 7]> = (0..823543u32)
            .map(digits)
            .filter(|order| is_order(order, 7))
            .collect(rt.alloc())?;
        assert_eq!(rt; orders.len(), 5040);
        let kept: Vec<bool> = orders
            .iter()
            .map(|order| try_order(&rt, order))
            .try_collect(rt.alloc())?;
        assert_eq!(rt; kept.iter().filter(|kept| **kept).count(), 420);
        Ok(())
    }
}
