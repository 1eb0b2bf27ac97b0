// The drill, step by step: from a script and a place in it to the text that comes next, over the engine's promises
// alone. specs/Run.antt says what a whole script prints, specs/Lines.antt which lines are good and what each changes
// and prints, specs/Stepping.antt what a step does; proofs/Whole.antt shows that the texts of all steps, joined, are
// what the script prints. What a go does among the nodes is crate aisle's. Nothing is read or written here but what is
// lent.
#![tactic(auto)]

ghost use Rattle.std.specs.Prelude.{◌≡◌, false, ◌+◌, ◌≤◌, get_or, length, drop, MatchOption};
ghost use Rattle.script.specs.Lines.{newline, until};
ghost use Rattle.script.specs.Fields.{numbers_on};
ghost use Rattle.script.specs.Commands.{crew_line_of, plans_of, line_of};
ghost use Rattle.drill.specs.Lines.{stamp_fits, fits, receiver_of, with_note};
ghost use Rattle.drill.specs.Stepping.{
  lines_from,
  outset,
  stands,
  stopped,
  over_bad,
  behind,
  pass_crew,
  pass_plans,
  pass_go,
  Stepped,
  SteppedFrom,
};
ghost use Rattle.drill.specs.Promises.{
  Standing,
  Passable,
  Heading,
  LineAt,
  note_of,
  passing,
  finishing,
  step_head,
  NotedAll,
};

use aisle::State;
use crew::MOST_NODES;
use node::Node;
use pending::Pending;
use script::{Command, Note};

// A script has at most so many bytes.
pub const MOST_BYTES: usize = 65_536;
// A program reads so many: one byte more is enough for the drill to see that a script is too long.
pub const MOST_READ: usize = MOST_BYTES + 1;
// No step's text is longer: a step prints one line at most.
pub const MOST_TEXT: usize = print::MOST_LINE;
// The line of a drill that is over: lines begin with 1, and the definitions `stands`, `stopped` and `way` of
// specs/Stepping.antt have 0 for none. An Option in its place would be a second word for the same.
pub const NO_LINE: u32 = 0;

const FIRST_LINE: u32 = 1;

const SECOND_LINE: u32 = 2;

// Where a drill stands in a script.
#[derive(Clone, Copy, PartialEq, Eq, Debug)]
pub struct Cursor {
    // Where the coming line begins.
    pub at: u32,
    // The coming line's number, NO_LINE where the drill is over.
    pub line: u32,
    pub state: State,
}

// The line that begins at a place, without the byte 10 that ends it; none where no such byte follows.
fn line_at(input: &[u8], at: u32) -> Option<&[u8]>
    ensures { MatchOption result (length input.now ≤ at + until newline (drop at input.now))
        (λ line. LineAt input.now at line.now) }
{
    let from = at as usize;
    let end = script::find(input, script::NEWLINE, from);
    if end < input.len() {
        return Some(&input[from..end]);
    }
    None
}

fn is_honest(honest: &[bool; MOST_NODES], i: u8) -> bool
    ensures { result ≡ get_or honest.now i false }
{
    honest.get(usize::from(i)).copied().unwrap_or(false)
}

// Whether a say may have this stamp in the coming round: its phase and round, which a state has among much else.
fn stamp_fits(round: u8, phase: u8, stamp: u8) -> bool
    ensures { result ≡ stamp_fits round phase stamp }
{
    match round {
        Node::SELECTION => stamp < phase,
        Node::VALIDATION => stamp == Node::UNSTAMPED,
        _ => stamp <= phase,
    }
}

// Whether a cut or a say can wait for the coming round.
fn is_fit(state: &State, note: Note) -> bool
    ensures { result ≡ fits state.now.setup state.now.moment.phase state.now.moment.round note }
{
    let n = state.setup.crew.n;
    let phase = state.moment.phase;
    match note {
        Note::Cut { sender, receiver } => sender < n && receiver < n,
        Note::Say {
            sender,
            receiver,
            plan,
            stamp,
        } => {
            sender < n
                && receiver < n
                && wire::is_plan(plan)
                && !is_honest(&state.setup.honest, sender)
                && stamp_fits(state.moment.round, phase, stamp)
                && phase < Node::SPENT
        }
    }
}

fn receiver_of(note: Note) -> u8
    ensures { result ≡ receiver_of note }
{
    match note {
        Note::Cut { receiver, .. } | Note::Say { receiver, .. } => receiver,
    }
}

// A cut or a say waits for its receiver.
fn add_note(pending: &mut Pending, note: Note)
    ensures { pending.new ≡ with_note pending.old note }
{
    *pending = match note {
        Note::Cut { sender, .. } => pending.with_cut(usize::from(sender)),
        Note::Say {
            sender,
            plan,
            stamp,
            ..
        } => pending.with_say(usize::from(sender), plan, stamp),
    };
}

// The cut or the say of a line, where it can wait for the coming round.
fn note_of(state: &State, line: &[u8]) -> Option<Note>
    ensures { result ≡ note_of state.now.setup state.now.moment.phase state.now.moment.round
        (line_of line.now) }
{
    match script::command_line(line) {
        Some(Command::Note(note)) if is_fit(state, note) => Some(note),
        _ => None,
    }
}

impl Cursor {
    // Whether a drill can stand there before a line of a script: no drill comes to any other place.
    fn can_stand(&self, input: &[u8]) -> bool
        ensures { result ≡ stands input.now self.now }
    {
        FIRST_LINE <= self.line
            && self.line as usize <= self.at as usize + 1
            && self.at as usize <= input.len()
            && usize::from(self.state.setup.crew.n) <= MOST_NODES
    }

    // The drill goes on behind a line.
    fn pass(&mut self, line: &[u8])
        requires { Passable self.old line.now }
        ensures { self.new ≡ behind self.old line.now self.old.state }
    {
        self.at += line.len() as u32 + 1;
        self.line += 1;
    }

    // Notes the cuts and says that come first: the drill then stands before the first line that cannot be noted, or the
    // script's end. A `while let`: where a line ends is not known before.
    fn note_all(&mut self, input: &[u8])
        requires { Standing input.now self.old }
        ensures { NotedAll input.now self.old self.new }
    {
        while let Some(line) = line_at(input, self.at) {
            let Some(note) = note_of(&self.state, line) else {
                return;
            };
            let receiver = usize::from(receiver_of(note));
            add_note(&mut self.state.moment.pending[receiver], note);
            self.pass(line);
        }
    }

    // The drill is over: no line comes any more.
    fn stop(&mut self)
        ensures { self.new ≡ stopped self.old }
    {
        self.line = NO_LINE;
    }

    // The drill is over at a bad line.
    fn stop_bad(&mut self, text: &mut [u8]) -> usize
        ensures { Stepped (over_bad self.old) self.new text.old text.new result }
    {
        let size = print::bad_line(text, self.line);
        self.stop();
        size
    }

    // A go: a whole round, and the line that it prints.
    fn pass_go(&mut self, line: &[u8], text: &mut [u8]) -> usize
        requires { Passable self.old line.now }
        ensures { Stepped (pass_go self.old line.now) self.new text.old text.new result }
    {
        let setup = self.state.setup;
        let moment = self.state.moment;
        let spent = Node::SPENT <= moment.phase;
        if spent {
            return self.stop_bad(text);
        }
        let n = usize::from(setup.crew.n);
        let after = aisle::go(setup, moment);
        self.state.moment = after;
        self.pass(line);
        let results = aisle::results_of(after.nodes, n);
        print::result_line(text, moment.phase, moment.round, n, results, setup.honest)
    }

    // The line behind the cuts and says: a go, or a bad one, be it a cut or a say that cannot wait.
    fn pass_command(&mut self, line: &[u8], text: &mut [u8]) -> usize
        requires { Passable self.old line.now }
        ensures { Stepped (passing self.old line.now (line_of line.now))
            self.new text.old text.new result }
    {
        match script::command_line(line) {
            Some(Command::Go) => self.pass_go(line, text),
            _ => self.stop_bad(text),
        }
    }

    // What stands behind the cuts and says: a line, or the script's end.
    fn pass_line(&mut self, input: &[u8], text: &mut [u8]) -> usize
        requires { Standing input.now self.old }
        ensures { Stepped (finishing self.old (lines_from input.now self.old.at))
            self.new text.old text.new result }
    {
        if let Some(line) = line_at(input, self.at) {
            return self.pass_command(line, text);
        }
        let at_end = self.at as usize == input.len();
        if at_end {
            self.stop();
            return print::end_line(text);
        }
        self.stop_bad(text)
    }

    // Line 1, a crew. Its nodes start with line 2.
    fn pass_crew(&mut self, line: &[u8], text: &mut [u8]) -> usize
        requires { Passable self.old line.now }
        ensures { Stepped (pass_crew self.old line.now (crew_line_of (numbers_on line.now)))
            self.new text.old text.new result }
    {
        match script::crew_line(line) {
            Some(crew) if crew::is_accepted(crew) => {
                self.pass(line);
                self.state = aisle::begin(crew, [Node::NO_PLAN; MOST_NODES]);
                0
            }
            _ => self.stop_bad(text),
        }
    }

    // Line 2, the nodes' initial plans.
    fn pass_plans(&mut self, line: &[u8], text: &mut [u8]) -> usize
        requires { Passable self.old line.now }
        ensures { Stepped
            (pass_plans self.old line.now (plans_of (numbers_on line.now) self.old.state.setup.crew.n))
            self.new text.old text.new result }
    {
        let crew = self.state.setup.crew;
        let Some(plans) = script::plans_line(line, usize::from(crew.n)) else {
            return self.stop_bad(text);
        };
        self.pass(line);
        self.state = aisle::begin(crew, plans);
        0
    }

    // One of the first two lines.
    fn pass_head(&mut self, input: &[u8], text: &mut [u8]) -> usize
        requires { Heading input.now self.old }
        ensures { Stepped (step_head self.old (lines_from input.now self.old.at))
            self.new text.old text.new result }
    {
        let Some(line) = line_at(input, self.at) else {
            return self.stop_bad(text);
        };
        if self.line == FIRST_LINE {
            self.pass_crew(line, text)
        } else {
            self.pass_plans(line, text)
        }
    }
}

// The drill goes on by a step: over the cuts and says that come first, and one line more. The step's text stands at the
// front of the lent buffer, and its size is the answer; what would lie beyond the buffer's end is left out, so a caller
// lends MOST_TEXT bytes. Of a drill that is over, and from a place where no drill can stand, nothing is to come.
pub fn step(input: &[u8], cursor: &mut Cursor, text: &mut [u8]) -> usize
    ensures { SteppedFrom input.now cursor.old cursor.new text.old text.new result }
{
    if !cursor.can_stand(input) {
        cursor.stop();
        return 0;
    }
    if MOST_BYTES < input.len() {
        cursor.stop();
        return print::long_line(text);
    }
    if cursor.line <= SECOND_LINE {
        return cursor.pass_head(input, text);
    }
    cursor.note_all(input);
    cursor.pass_line(input, text)
}

// A drill before line 1.
pub fn start() -> Cursor
    ensures { result ≡ outset }
{
    Cursor {
        at: 0,
        line: FIRST_LINE,
        state: aisle::begin(crew::blank_crew(), [Node::NO_PLAN; MOST_NODES]),
    }
}
