//! The cases of a data file, as values.

/// A value with its name in data files. The name comes first.
pub type Named<T> = (&'static str, T);

/// The form in which a call takes and returns shards.
pub enum Form {
    /// The call takes shards from iterators, and returns vectors.
    Iterators,
    /// The call takes slices of shards, and returns vectors.
    Slices,
    /// The call takes slices of shards, and writes into rooms.
    Rooms,
    /// `encode_slice`, and `reconstruct` of the missing originals.
    Wanted,
    /// `encode_slice`, and `reconstruct_into` of the missing originals.
    WantedRooms,
    /// `encode_slice`, and `verify` before `decode_slice`.
    Verified,
    /// `update_into` after an `encode_slice` of a message in which one original is zero, and `decode_slice`.
    Updated,
    /// `split` before `encode_slice`, and `complete` and `join` after `decode_slice`.
    Messages,
}

/// The level of use at which an action is run.
pub enum LevelName {
    /// The one-call functions in a form.
    OneCall(Form),
    /// The plain objects.
    Plain,
    /// The objects of the low rate.
    Low,
    /// The objects of the high rate.
    High,
    /// The objects of the default rate.
    Default,
}

/// All levels, in the order in which they run a case.
pub static LEVELS: [Named<LevelName>; 12] = [
    ("call", LevelName::OneCall(Form::Iterators)),
    ("slices", LevelName::OneCall(Form::Slices)),
    ("rooms", LevelName::OneCall(Form::Rooms)),
    ("wanted", LevelName::OneCall(Form::Wanted)),
    ("wanted-rooms", LevelName::OneCall(Form::WantedRooms)),
    ("verified", LevelName::OneCall(Form::Verified)),
    ("updated", LevelName::OneCall(Form::Updated)),
    ("messages", LevelName::OneCall(Form::Messages)),
    ("plain", LevelName::Plain),
    ("low", LevelName::Low),
    ("high", LevelName::High),
    ("default", LevelName::Default),
];

/// The levels of objects of a rate. These objects work with any engine.
pub static RATES: [Named<LevelName>; 3] = [
    ("low", LevelName::Low),
    ("high", LevelName::High),
    ("default", LevelName::Default),
];

/// The way in which a case gets its object.
pub enum Way {
    /// The object is made without memory of another one.
    New,
    /// The object of the previous case is reset.
    Reset,
    /// The object is made with the memory of the previous case's object.
    HandedOn,
}

/// All ways.
pub static WAYS: [Named<Way>; 3] = [
    ("new", Way::New),
    ("reset", Way::Reset),
    ("handed-on", Way::HandedOn),
];

/// The number of originals, the number of recovery shards, and the size of a shard in bytes, that an object is made
/// for.
pub type Configuration = (usize, usize, usize);

/// One of the two objects of a level.
#[derive(Clone, Copy)]
pub enum Object {
    /// The encoder.
    Encoder,
    /// The decoder.
    Decoder,
}

/// The role in which a shard is given.
#[derive(Drop)]
pub enum Role {
    /// The encoder's next original.
    Next,
    /// An original for the decoder.
    Original,
    /// A recovery shard for the decoder.
    Recovery,
}

/// The index of a shard, and its bytes.
pub type Shard = (usize, Vec<u8>);

/// The shards that one word of a line names.
#[derive(Drop)]
pub enum Shards {
    /// One shard, whose bytes are in the word.
    Written(Shard),
    /// The shards with the indexes from the first number up to, but not including, the second one, of a message or of
    /// its recovery shards.
    Range(usize, usize),
    /// No shard: the iterator ends once at this place. It continues if `next` is called again.
    End,
}

/// The shards that one word of an action gives to an object in a role.
pub type Given = (Role, Shards);

/// The rule that makes the originals of a message.
#[derive(Drop)]
pub enum Rule {
    /// Byte i of original j is (7 i + 13 j + 5) mod 251.
    Counted,
    /// The bytes come from the generator ChaCha8, whose 32 seed bytes all have this value.
    Drawn(u8),
    /// Each original has two bytes: original j is the word with this number plus j, with its low byte first.
    Points(usize),
}

/// An action: calls that a level of use makes.
#[derive(Drop)]
pub enum Action {
    /// Makes the object for a configuration.
    Start(Object, Configuration),
    /// Resets the object to a configuration.
    Reset(Object, Configuration),
    /// Takes both objects apart. The next encoder and the next decoder that are made get their memory.
    TakeApart,
    /// Passes an empty work to the next object that is made.
    EmptyWorks,
    /// Gives shards.
    Give(Vec<Given>),
    /// Gives shards, if there are any, and encodes or decodes.
    Round(Object, Vec<Given>),
    /// Gets an object in the way in which the case is run, does the round twice, and then gives the first shards once
    /// more.
    Rounds(Object, Configuration, Vec<Given>),
    /// From now on, the case forgets the results of its calls (`mem::forget`) instead of dropping them.
    Forget,
    /// Makes a message by a rule, and encodes it.
    Make(Configuration, Rule),
    /// Computes the digest of the recovery shards.
    Digest,
    /// Checks that the counts of all these configurations are supported if the first value is true, and that none of
    /// them is supported otherwise.
    Counts(bool, Vec<Configuration>),
    /// Makes all calls that take a configuration. All of them must fail with the same error.
    Configure(Configuration),
}

/// The number of originals and the number of recovery shards that a call did not take from its iterators.
pub type Left = (usize, usize);

/// The expected result of an action.
#[derive(Drop)]
pub enum Expected {
    /// The action returns these shards, in order, or no shards.
    Shards(Vec<Given>),
    /// The action returns this text: the text of an error, or a digest.
    Text(String),
}

/// An action with its expected result.
#[derive(Drop)]
pub struct Step {
    /// The number of the line in the file, from 1.
    pub line: usize,
    /// The text of the action in the line.
    pub text: String,
    /// Whether the action is only run after an action that failed with `OutOfMemory`.
    pub is_else: bool,
    /// The action.
    pub action: Action,
    /// The expected result of the action.
    pub expected: Expected,
    /// The numbers of shards that the call must not take from its iterators.
    pub left: Left,
}

/// A line of a case.
#[derive(Drop)]
pub enum Line {
    /// The lines after this one are run with this level.
    By(&'static Named<LevelName>),
    /// The line holds this action.
    Step(Step),
}

/// A case: actions that follow one another, and the levels of use that run them.
#[derive(Drop)]
pub struct Case {
    /// The levels that run the case.
    pub levels: Vec<&'static Named<LevelName>>,
    /// The lines of the case, in order.
    pub lines: Vec<Line>,
}

impl Case {
    /// Returns whether this level runs the case.
    pub fn is_by(&self, level: &Named<LevelName>) -> bool {
        self.levels.iter().any(|own| own.0 == level.0)
    }
}

/// The cases of a file.
#[derive(Drop)]
pub struct CaseFile {
    /// The ways in which cases get their objects. Every case is run once in each of these ways.
    pub ways: Vec<&'static Named<Way>>,
    /// Whether the cases are run with every engine. Otherwise they are run with `ssse3` alone.
    pub every_engine: bool,
    /// The cases, in order.
    pub cases: Vec<Case>,
}
