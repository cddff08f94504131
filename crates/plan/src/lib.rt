// What a turn reads before it changes anything: the words of its command and the operands. Only this part can refuse.
#![tactic(auto)]

ghost use Rattle.std.specs.Prelude.{◌≡◌, ℕ, Bool, List, length, Ok};
ghost use Rattle.cells.specs.Runs.{Finds};
ghost use Rattle.store.specs.View.{view};
ghost use Rattle.store.specs.declared.Board.{Board as BoardOf};
ghost use Rattle.plan.specs.Actions.{line_at, value, planned, plan};
ghost use Rattle.plan.specs.Fetch.{word, jump_word, source_word, operand_words, fetch, site_of};

use cells::Trail;
use store::{Board, Line, read_ram};
use words::{
    Base, Command, Head, Layout, Operand, Reason, Refusal, Site, TaskNumber, base_operand, decode,
    layout_of, source_operand,
};

// The words of a command: RAM, and where the command stands in it.
#[derive(Clone, Copy)]
struct Words<'a> {
    ram: &'a [u16],
    site: Site,
}

impl<'a> Words<'a> {
    // The word n words past the head. Addresses wrap at the end of a RAM of 65,536 words.
    fn word(&self, n: u16, trail: &mut Trail) -> Result<u16, Refusal>
        ensures { (b : BoardOf) (is os : List Bool) → Finds (word (length self.now.ram.now) self.now.site n) (view b is os self.now.ram.now) trail.old result trail.new }
    {
        let address = self.site.place.wrapping_add(n);
        if usize::from(address) >= self.ram.len() {
            return Err(self.site.refusal(Reason::PastRam, 0));
        }
        Ok(read_ram(self.ram, address, trail))
    }

    // The jump address of a command that has one.
    fn jump(&self, layout: Layout, trail: &mut Trail) -> Result<Option<u16>, Refusal>
        ensures { (b : BoardOf) (is os : List Bool) → Finds (jump_word (length self.now.ram.now) self.now.site layout) (view b is os self.now.ram.now) trail.old result trail.new }
    {
        if layout.jump {
            self.word(1, trail).map(Some)
        } else {
            Ok(None)
        }
    }

    // The source of a command that has a pair, from the word after the head and the jump address.
    fn source(
        &self,
        layout: Layout,
        mode: u8,
        trail: &mut Trail,
    ) -> Result<Option<Operand>, Refusal>
        ensures { (b : BoardOf) (is os : List Bool) → Finds (source_word (length self.now.ram.now) self.now.site layout mode) (view b is os self.now.ram.now) trail.old result trail.new }
    {
        let Some(_) = layout.first else {
            return Ok(None);
        };
        let data = self.word(layout.before_data(), trail)?;
        source_operand(mode, data, self.site, 1).map(Some)
    }

    // The words after the head.
    fn operands(&self, command: Command, head: Head, trail: &mut Trail) -> Result<Fetched, Refusal>
        ensures { (b : BoardOf) (is os : List Bool) → Finds (operand_words (length self.now.ram.now) self.now.site command head) (view b is os self.now.ram.now) trail.old result trail.new }
    {
        let layout = layout_of(head.code);
        let jump = self.jump(layout, trail)?;
        let source = self.source(layout, head.source, trail)?;
        Ok(Fetched {
            command,
            jump,
            source,
            base: base_operand(head.destination),
            next: self.site.place.wrapping_add(layout.length()),
        })
    }
}

// A command with its words, all checked. The constant table of codes says which of them a command has, so no variant of
// `Command` can carry them. Where one is missing its value is not used, and a stand-in serves: 0, the flags, the next place.
#[derive(Clone, Copy, PartialEq, Eq, Debug)]
pub struct Fetched {
    pub command: Command,
    pub jump: Option<u16>,
    pub source: Option<Operand>,
    pub base: Option<Base>,
    pub next: u16,
}

pub fn fetch(ram: &[u16], site: Site, trail: &mut Trail) -> Result<Fetched, Refusal>
    ensures { (b : BoardOf) (is os : List Bool) → Finds (fetch (length ram.now) site) (view b is os ram.now) trail.old result trail.new }
{
    let words = Words { ram, site };
    let word = words.word(0, trail)?;
    let head = Head::from(word);
    let command = decode(head, site)?;
    words.operands(command, head, trail)
}

// What is left of a command once nothing can refuse it: all its values are known.
#[derive(Clone, Copy, PartialEq, Eq, Debug)]
pub enum Action {
    Jump {
        to: u16,
    },
    BranchOn {
        line: Line,
        value: bool,
        to: u16,
        next: u16,
    },
    Write {
        line: Line,
        value: bool,
        next: u16,
    },
    Invert {
        line: Line,
        next: u16,
    },
    HaltWhile {
        line: Line,
        value: bool,
        next: u16,
    },
    EndTask {
        next: u16,
    },
}

// The value of a source. A command without one takes 0.
fn take_value(board: &Board, t: TaskNumber, source: Option<Operand>, trail: &mut Trail) -> u16
    ensures { (is os : List Bool) (ws : List ℕ) → Finds (value t source) (view board.now is os ws) trail.old (Ok result) trail.new }
{
    // in two steps: tried as one match over both enums, where the proof does not close
    let Some(source) = source else {
        return 0;
    };
    match source {
        Operand::Immediate(v) => v,
        Operand::Register(r) => board.read_register(t, r, trail),
    }
}

// The line with this number on a base. A number above 255 is refused. Only a command without a base has None here, and its
// line is not used.
fn locate(site: Site, base: Option<Base>, offset: u16) -> Result<Line, Refusal>
    ensures { result ≡ line_at site base offset }
{
    let Ok(n) = u8::try_from(offset) else {
        return Err(site.refusal(Reason::ValueRange, 2));
    };
    Ok(match base {
        Some(Base::Inputs) => Line::Input(n),
        Some(Base::Outputs) => Line::Output(n),
        Some(Base::Flags) | None => Line::Flag(n),
    })
}

// The action of a command whose offset was taken.
fn act_on(site: Site, fetched: Fetched, offset: u16) -> Result<Action, Refusal>
    ensures { result ≡ planned site fetched offset }
{
    let next = fetched.next;
    let to = fetched.jump.unwrap_or(next);
    let line = locate(site, fetched.base, offset);
    match fetched.command {
        Command::Branch => Ok(Action::Jump { to }),
        Command::EndTask => Ok(Action::EndTask { next }),
        Command::BranchOn { value } => line.map(|line| Action::BranchOn {
            line,
            value,
            to,
            next,
        }),
        Command::Write { value } => line.map(|line| Action::Write { line, value, next }),
        Command::Invert => line.map(|line| Action::Invert { line, next }),
        Command::HaltWhile { value } => line.map(|line| Action::HaltWhile { line, value, next }),
    }
}

// Fetches the command of a task at a place, takes its operands and tests them. The task is a `TaskNumber`, since the
// task of a `Site` may be any byte.
pub fn plan_command(
    board: &Board,
    ram: &[u16],
    task: TaskNumber,
    place: u16,
    trail: &mut Trail,
) -> Result<Action, Refusal>
    ensures { (is os : List Bool) → Finds (plan (length ram.now) (site_of task place)) (view board.now is os ram.now) trail.old result trail.new }
{
    let site = Site {
        task: task.get(),
        place,
    };
    let fetched = fetch(ram, site, trail)?;
    let offset = take_value(board, task, fetched.source, trail);
    act_on(site, fetched, offset)
}
