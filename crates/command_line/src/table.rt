//! The table of requests: a row for each value of `--ask`, one for each file that may be named, and the options.

ghost use Rattle.std.specs.Prelude.{◌≡◌, ◌==◌, ◌<◌, ◌^◌};
ghost use Rattle.std.specs.Option.{option_map};
ghost use Rattle.command_line.specs.Table.{reading, compiling, modelling, judging, rehearsing, replaying, wanting, comparing, has, beside, over_catalog, with_catalog, bytes_of, ask_row, ask_among, ask_named, limits_named, role_row, limit_of, role_index, usage_line};

use crate::size::Size;
use host_limits::Limits;
use rh_base::limits::{
    FACTS_BYTES, LISTING_BYTES, MANIFEST_BYTES, ORDER_BYTES, PROOF_BYTES, TREE_BYTES,
};

/// The values of `--ask`.
#[derive(Clone, Copy, Debug, PartialEq, Eq)]
pub enum Ask {
    /// Whether a manifest is deterministic and idempotent.
    Verify,
    /// The proofs of what is answered to that.
    Proof,
    /// The catalog of a manifest.
    Catalog,
    /// The graph of a manifest's catalog.
    Graph,
    /// What the resources of a manifest's catalog do.
    Programs,
    /// The outcome of a manifest's resources on a file tree.
    Replay,
    /// Whether the proofs of a text are right.
    Check,
    /// A listing of packages in its newest form.
    Migrate,
    /// Which arrows a manifest lacks.
    Repair,
    /// Whether each run of a manifest that ends leaves an entry.
    Ensures,
    /// Whether two manifests do the same.
    Equal,
    /// The same as `Verify`, and of a no where to look.
    Explain,
}

/// What an input may be.
#[derive(Clone, Copy, Debug, PartialEq, Eq)]
pub enum InputKind {
    Manifest,
    /// A catalog that Puppet compiled.
    Compiled,
    Proofs,
    /// A listing of packages.
    Listing,
}

/// The files that a request may name.
#[derive(Clone, Copy, Debug, PartialEq, Eq)]
pub enum Role {
    /// What is known of the node.
    Facts,
    /// What is in the packages.
    Packages,
    /// Values for the parameters of classes.
    Data,
    /// A compiled catalog, which is asked about in the place of an input.
    Compiled,
    /// What is asked about: a manifest, proofs or a listing.
    Input,
    /// The manifest or the compiled catalog that it is compared with.
    Other,
    /// The file tree that a replay begins with.
    Tree,
    /// The order of a replay.
    Order,
    /// What is assumed of resources.
    Assume,
    /// What every host has.
    Given,
}

/// What there may be to do for a request. Each option serves one of these.
#[derive(Clone, Copy, Debug, PartialEq, Eq)]
pub enum Task {
    /// To read the input.
    Read,
    /// To compile a manifest.
    Compile,
    /// To make a catalog, of a manifest or of one that was compiled before.
    Plan,
    /// To say what its resources do.
    Model,
    /// To judge that.
    Judge,
    /// To judge a workload in place of an input.
    Load,
    /// To run it over a file tree.
    Replay,
    /// To look for an entry that is wanted.
    Want,
    /// To compare it with another one.
    Compare,
    /// To take what is assumed of resources for what they do.
    Assume,
}

/// What there is to do for a request.
#[derive(Clone, Copy, Debug, PartialEq, Eq)]
pub struct Tasks {
    pub reads: bool,
    pub compiles: bool,
    pub plans: bool,
    pub models: bool,
    pub judges: bool,
    pub loads: bool,
    pub replays: bool,
    pub wants: bool,
    pub compares: bool,
    pub assumes: bool,
}

/// The values of `--ask`, each of which has a row below.
const ASKS: [Ask; 12] = [
    Ask::Verify,
    Ask::Proof,
    Ask::Catalog,
    Ask::Graph,
    Ask::Programs,
    Ask::Replay,
    Ask::Check,
    Ask::Migrate,
    Ask::Repair,
    Ask::Ensures,
    Ask::Equal,
    Ask::Explain,
];

/// The files, in the order in which they are read and refusals are looked for. Each has a row below.
pub(crate) const ROLES: [Role; 10] = [
    Role::Facts,
    Role::Packages,
    Role::Data,
    Role::Compiled,
    Role::Input,
    Role::Other,
    Role::Tree,
    Role::Order,
    Role::Assume,
    Role::Given,
];

/// The options, in the order of the line of usage.
pub(crate) const OPTIONS: [&str; 16] = [
    "facts",
    "packages",
    "node",
    "conflicts",
    "ask",
    "tree",
    "order",
    "workload",
    "path",
    "content",
    "other",
    "data",
    "compiled",
    "assume",
    "given",
    "limits",
];

/// Bytes of a text of what every host has.
pub const GIVEN_BYTES: usize = 1_048_576;

/// Bytes of a text of assumptions.
pub const ASSUMED_BYTES: usize = 1_048_576;

/// Bytes of the text of a compiled catalog.
pub const COMPILED_BYTES: usize = 16_777_216;

/// How the program is called, where the words are refused.
pub fn usage_line() -> &'static [u8]
    ensures { result.now ≡ usage_line }
{
    b"usage: rehearsal [--facts F] [--packages P] [--node N] [--conflicts C] [--ask A] [--tree T] [--order O] [--workload N] [--path P] [--content T] [--other M] [--data D] [--compiled C] [--assume S] [--given G] [--limits L] [INPUT]\n"
}

/// To read a text.
fn reading() -> Tasks
    ensures { result ≡ reading }
{
    Tasks {
        reads: true,
        compiles: false,
        plans: false,
        models: false,
        judges: false,
        loads: false,
        replays: false,
        wants: false,
        compares: false,
        assumes: false,
    }
}

/// To read a manifest and compile it, or to read a catalog that was compiled before.
fn compiling() -> Tasks
    ensures { result ≡ compiling }
{
    let mut tasks = reading();
    tasks.compiles = true;
    tasks.plans = true;
    tasks
}

/// That, and to say what its resources do.
fn modelling() -> Tasks
    ensures { result ≡ modelling }
{
    let mut tasks = compiling();
    tasks.models = true;
    tasks
}

/// That, and to judge them.
fn judging() -> Tasks
    ensures { result ≡ judging }
{
    let mut tasks = modelling();
    tasks.judges = true;
    tasks
}

/// That, and to judge a workload in place of an input.
fn rehearsing() -> Tasks
    ensures { result ≡ rehearsing }
{
    let mut tasks = judging();
    tasks.loads = true;
    tasks
}

/// To say what they do, and to run them.
fn replaying() -> Tasks
    ensures { result ≡ replaying }
{
    let mut tasks = modelling();
    tasks.replays = true;
    tasks
}

/// To judge them, and to look for an entry that is wanted.
fn wanting() -> Tasks
    ensures { result ≡ wanting }
{
    let mut tasks = judging();
    tasks.wants = true;
    tasks
}

/// To judge them, and to compare them with those of another manifest.
fn comparing() -> Tasks
    ensures { result ≡ comparing }
{
    let mut tasks = judging();
    tasks.compares = true;
    tasks
}

impl Tasks {
    /// Whether this is among them.
    pub(crate) fn has(&self, task: Task) -> bool
        ensures { result ≡ has task self.now }
    {
        match task {
            Task::Read => self.reads,
            Task::Compile => self.compiles,
            Task::Plan => self.plans,
            Task::Model => self.models,
            Task::Judge => self.judges,
            Task::Load => self.loads,
            Task::Replay => self.replays,
            Task::Want => self.wants,
            Task::Compare => self.compares,
            Task::Assume => self.assumes,
        }
    }

    /// Those that are left where a compiled catalog stands in the input's place: nothing is to be compiled, and what its resources do
    /// may be assumed.
    fn over_catalog(self) -> Tasks
        ensures { result ≡ over_catalog self }
    {
        let mut tasks = self;
        tasks.reads = false;
        tasks.compiles = false;
        tasks.loads = false;
        tasks.assumes = self.models;
        tasks
    }

    /// The same, if a compiled catalog is named and may be.
    pub(crate) fn with_catalog(self, compiled: Option<&str>) -> Tasks
        ensures { result ≡ with_catalog (option_map (λ s. s.now) compiled.entry) self }
    {
        match compiled {
            Some(_) if self.plans => self.over_catalog(),
            _ => self,
        }
    }

    /// Those that are left beside a workload, which brings its own manifest and listing: to judge them.
    pub(crate) fn beside(self, workload: &Option<Size>) -> Tasks
        ensures { result ≡ beside workload.now self }
    {
        match workload {
            None => self,
            Some(_) => Tasks {
                reads: false,
                compiles: false,
                plans: false,
                models: false,
                judges: self.judges,
                loads: false,
                replays: false,
                wants: false,
                compares: false,
                assumes: false,
            },
        }
    }
}

impl InputKind {
    /// How many bytes such an input may have.
    fn bytes(self) -> usize
        ensures limit { result ≡ bytes_of self }
        ensures small { result < 2 ^ 32 }
    {
        match self {
            InputKind::Manifest => MANIFEST_BYTES,
            InputKind::Compiled => COMPILED_BYTES,
            InputKind::Proofs => PROOF_BYTES,
            InputKind::Listing => LISTING_BYTES,
        }
    }
}

impl Ask {
    /// Its word, what there is to do for it, and what its input is.
    fn row(self) -> (&'static str, Tasks, InputKind)
        ensures word { result.0.now ≡ (ask_row self).word }
        ensures tasks { result.1 ≡ (ask_row self).tasks }
        ensures input { result.2 ≡ (ask_row self).input }
    {
        match self {
            Ask::Verify => ("verify", rehearsing(), InputKind::Manifest),
            Ask::Proof => ("proof", rehearsing(), InputKind::Manifest),
            Ask::Catalog => ("catalog", compiling(), InputKind::Manifest),
            Ask::Graph => ("graph", compiling(), InputKind::Manifest),
            Ask::Programs => ("programs", modelling(), InputKind::Manifest),
            Ask::Replay => ("replay", replaying(), InputKind::Manifest),
            Ask::Check => ("check", reading(), InputKind::Proofs),
            Ask::Migrate => ("migrate", reading(), InputKind::Listing),
            Ask::Repair => ("repair", judging(), InputKind::Manifest),
            Ask::Ensures => ("ensures", wanting(), InputKind::Manifest),
            Ask::Equal => ("equal", comparing(), InputKind::Manifest),
            Ask::Explain => ("explain", rehearsing(), InputKind::Manifest),
        }
    }

    /// The word that asks for it.
    fn word(self) -> &'static str
        ensures { result.now ≡ (ask_row self).word }
    {
        self.row().0
    }

    /// What there is to do for it.
    pub(crate) fn tasks(self) -> Tasks
        ensures { result ≡ (ask_row self).tasks }
    {
        self.row().1
    }

    /// What its input is.
    pub(crate) fn input(self) -> InputKind
        ensures { result ≡ (ask_row self).input }
    {
        self.row().2
    }

    /// What a word asks for.
    pub(crate) fn named(word: &str) -> Option<Ask>
        ensures { result ≡ ask_named word.now }
    {
        ask_among(&ASKS, word)
    }
}

/// The first of these that a word asks for.
fn ask_among(asks: &[Ask], word: &str) -> Option<Ask>
    ensures { result ≡ ask_among asks.now word.now }
{
    for ask in asks {
        if ask.word() == word {
            return Some(*ask);
        }
    }
    None
}

/// The limits that a word names.
pub(crate) fn limits_named(word: &str) -> Option<Limits>
    ensures { result ≡ limits_named word.now }
{
    if word == "usual" {
        return Some(Limits::Usual);
    }
    if word == "host" {
        return Some(Limits::Host);
    }
    None
}

impl Role {
    /// How the words name it, how a refusal calls it, what it serves, and how many bytes it may have; without a number,
    /// as many as the input.
    fn row(self) -> (&'static str, &'static str, Task, Option<usize>)
        ensures word { result.0.now ≡ (role_row self).word }
        ensures label { result.1.now ≡ (role_row self).label }
        ensures task { result.2 ≡ (role_row self).task }
        ensures limit { result.3 ≡ (role_row self).limit }
    {
        match self {
            Role::Facts => ("facts", "facts", Task::Compile, Some(FACTS_BYTES)),
            Role::Packages => ("packages", "packages", Task::Model, Some(LISTING_BYTES)),
            Role::Data => ("data", "data", Task::Compile, Some(FACTS_BYTES)),
            Role::Compiled => ("compiled", "compiled", Task::Plan, None),
            Role::Input => ("INPUT", "input", Task::Read, None),
            Role::Other => ("other", "other", Task::Compare, None),
            Role::Tree => ("tree", "tree", Task::Replay, Some(TREE_BYTES)),
            Role::Order => ("order", "order", Task::Replay, Some(ORDER_BYTES)),
            Role::Assume => ("assume", "assume", Task::Assume, Some(ASSUMED_BYTES)),
            Role::Given => ("given", "given", Task::Model, Some(GIVEN_BYTES)),
        }
    }

    /// How the words name it.
    pub(crate) fn word(self) -> &'static str
        ensures { result.now ≡ (role_row self).word }
    {
        self.row().0
    }

    /// How a refusal calls it.
    pub fn label(self) -> &'static str
        ensures { result.now ≡ (role_row self).label }
    {
        self.row().1
    }

    /// What it serves.
    pub(crate) fn task(self) -> Task
        ensures { result ≡ (role_row self).task }
    {
        self.row().2
    }

    /// How many bytes it may have, beside an input of this kind.
    pub fn limit(self, input: InputKind) -> usize
        ensures limit { result ≡ limit_of input self }
        ensures small { result < 2 ^ 32 }
    {
        match self.row().3 {
            Some(limit) => limit,
            None => input.bytes(),
        }
    }

    /// Whether it is this one.
    pub(crate) fn is(self, role: Role) -> bool
        ensures { result ≡ (role_index self == role_index role) }
    {
        self == role
    }
}
