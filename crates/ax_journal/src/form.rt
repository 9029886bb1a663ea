ghost use Rattle.std.specs.Prelude.{◌≡◌, ◌<◌, map, option_map};
ghost use Rattle.std.specs.List.{find};
ghost use Rattle.ax_journal.specs.Form.{place, is_built, kind, one, show, named, is_called, worded, form_named};

/// A form of an order's line: one of the 28 kinds of step, or one of the last three, which are two steps each.
#[derive(Clone, Copy, PartialEq, Eq)]
pub enum Form {
    Tick,
    Send,
    Append,
    Void,
    Snapshot,
    Deliver,
    Claim,
    Extend,
    Release,
    Split,
    Merge,
    Reset,
    Fetch,
    Commit,
    Take,
    Settle,
    Evict,
    Policy,
    Mark,
    Heal,
    Advance,
    Stop,
    ShowRows,
    ShowTokens,
    ShowLetters,
    ShowSagas,
    ShowLog,
    ShowSent,
    /// `do AGG COMMAND ARGS`: send and append.
    Do,
    /// `work PROC SEG MAX`: fetch and commit.
    Work,
    /// `retry PROC`: take and settle.
    Retry,
}

/// What the fields of an order are, in the order of their words.
#[derive(Clone, Copy)]
pub enum Shape {
    Nothing,
    /// Milliseconds, 1 to 1,000,000,000.
    Moment,
    /// A place of the log, below 2^32.
    Cell,
    /// An aggregate or a processor.
    Name,
    /// A processor and a segment.
    Segment,
    /// A processor, a segment and a number of 1 to 10,000.
    UpTo,
    /// A processor and an item.
    Item,
    /// A processor, and `keep` or `drop`.
    Policy,
    /// An aggregate, a command and its arguments.
    Command,
}

/// A form's word, which follows the word `show` where it is shown, and the shape of its fields.
#[derive(Clone, Copy)]
pub(crate) struct Kind {
    pub(crate) shown: bool,
    pub(crate) word: &'static [u8],
    pub(crate) shape: Shape,
}

/// Calls a macro with the names of the 28 kinds of step, which are those of their forms, in the order of their places.
macro_rules! each_order {
    ($then:ident $($first:tt)*) => {
        $then!($($first)* Tick Send Append Void Snapshot Deliver Claim Extend Release Split Merge Reset Fetch Commit Take
            Settle Evict Policy Mark Heal Advance Stop ShowRows ShowTokens ShowLetters ShowSagas ShowLog ShowSent)
    };
}

pub(crate) use each_order;

/// The forms of these names, and the three of two steps each.
macro_rules! all_forms {
    ($($name:ident)*) => {
        [$(Form::$name,)* Form::Do, Form::Work, Form::Retry]
    };
}

/// All forms, in the order of their places.
const FORMS: [Form; 31] = each_order!(all_forms);

/// Which forms are built, by their places.
pub const BUILT: [bool; 31] = [
    // tick, send, append, void, snapshot, deliver
    true, true, true, true, false, false,
    // claim, extend, release, split, merge, reset
    true, true, true, true, true, false,
    // fetch, commit, take, settle, evict, policy, mark, heal, advance, stop
    true, true, false, false, false, false, false, false, false, true,
    // show rows, tokens, letters, sagas, log, sent
    true, true, false, false, true, false,
    // do, work, retry
    true, true, false,
];

impl Form {
    /// The place of the form in the tables of forms.
    pub fn place(self) -> usize
        ensures value { result ≡ place self }
        ensures within { result < 31 }
    {
        self as usize
    }

    /// Whether the form is built: its flag in `BUILT`. A line of a form that is not built is refused.
    pub fn is_built(self) -> bool
        ensures { result ≡ is_built self }
    {
        BUILT[self.place()]
    }

    fn is_called(self, shown: bool, word: &[u8]) -> bool
        ensures { result ≡ is_called shown word.now (kind self) }
    {
        let kind = self.kind();
        kind.shown == shown && kind.word == word
    }

    /// The table of the forms' words and fields, which writer and reader go by.
    pub(crate) fn kind(self) -> Kind
        ensures { named result ≡ kind self }
    {
        match self {
            Form::Tick => one(b"tick", Shape::Moment),
            Form::Send => one(b"send", Shape::Command),
            Form::Append => one(b"append", Shape::Nothing),
            Form::Void => one(b"void", Shape::Cell),
            Form::Snapshot => one(b"snapshot", Shape::Name),
            Form::Deliver => one(b"deliver", Shape::Nothing),
            Form::Claim => one(b"claim", Shape::Segment),
            Form::Extend => one(b"extend", Shape::Segment),
            Form::Release => one(b"release", Shape::Segment),
            Form::Split => one(b"split", Shape::Segment),
            Form::Merge => one(b"merge", Shape::Segment),
            Form::Reset => one(b"reset", Shape::Name),
            Form::Fetch => one(b"fetch", Shape::UpTo),
            Form::Commit => one(b"commit", Shape::Nothing),
            Form::Take => one(b"take", Shape::Name),
            Form::Settle => one(b"settle", Shape::Nothing),
            Form::Evict => one(b"evict", Shape::Item),
            Form::Policy => one(b"policy", Shape::Policy),
            Form::Mark => one(b"mark", Shape::Item),
            Form::Heal => one(b"heal", Shape::Item),
            Form::Advance => one(b"advance", Shape::UpTo),
            Form::Stop => one(b"stop", Shape::Nothing),
            Form::ShowRows => show(b"rows", Shape::Name),
            Form::ShowTokens => show(b"tokens", Shape::Name),
            Form::ShowLetters => show(b"letters", Shape::Name),
            Form::ShowSagas => show(b"sagas", Shape::Name),
            Form::ShowLog => show(b"log", Shape::Nothing),
            Form::ShowSent => show(b"sent", Shape::Nothing),
            Form::Do => one(b"do", Shape::Command),
            Form::Work => one(b"work", Shape::UpTo),
            Form::Retry => one(b"retry", Shape::Name),
        }
    }
}

fn one(word: &'static [u8], shape: Shape) -> Kind
    ensures { named result ≡ one word.now shape }
{
    Kind {
        shown: false,
        word,
        shape,
    }
}

fn show(word: &'static [u8], shape: Shape) -> Kind
    ensures { named result ≡ show word.now shape }
{
    Kind {
        shown: true,
        ..one(word, shape)
    }
}

/// The form that the words begin with, one word or `show` and another, and the words of its fields.
/// None comes exactly where no form is called so.
pub fn read_form<'a>(words: &'a [&'a [u8]]) -> Option<(Form, &'a [&'a [u8]])>
    ensures { option_map (λ t. record { form = t.0; fields = map (λ w. w.now) t.1.now }) result ≡ worded (map (λ w. w.now) words.now) }
{
    let [word, rest @ ..] = words else {
        return None;
    };
    if *word != b"show".as_slice() {
        return Some((form_of(false, word)?, rest));
    }
    let [word, rest @ ..] = rest else {
        return None;
    };
    Some((form_of(true, word)?, rest))
}

fn form_of(shown: bool, word: &[u8]) -> Option<Form>
    ensures { result ≡ form_named shown word.now }
{
    first_called(&FORMS, shown, word)
}

fn first_called(forms: &[Form], shown: bool, word: &[u8]) -> Option<Form>
    ensures { result ≡ find (λ f. is_called shown word.now (kind f)) forms.now }
{
    for form in forms {
        if form.is_called(shown, word) {
            return Some(*form);
        }
    }
    None
}
