//! What the words ask for.

ghost use Rattle.std.specs.Prelude.{◌≡◌, ◌≢◌, Option, ◌↔◌, ◌<◌, ◌^◌, [], map, string_bytes, None, is_some, IsTrue, IfOk, IfErr, OnOk, codes};
ghost use Rattle.std.specs.Option.{option_map, option_or};
ghost use Rattle.clap.specs.Words.{found_of, rows_of, first_of, matches_of, fault_of, kind_of};
ghost use Rattle.clap.specs.declared.error.kind.ErrorKind.TheVariants.{OutOfMemory};
ghost use Rattle.command_line.specs.declared.size.TheConstants.{MOST_WORKLOAD};
ghost use Rattle.command_line.specs.Words.{synopsis, ask_in, taken, taken_number, limits_beside, taken_limits, names_in, with_other, with_input, source_in, request_for, request_in, IsEntryAt, IsWanted, IsGiven, Makes, IfRefused, IsMade, IsWithin};
ghost use Rattle.command_line.specs.Table.{load_of};
ghost use Rattle.command_line.specs.declared.request.Request.{Request};
ghost use Rattle.command_line.specs.declared.table.Role.TheVariants.{Compiled, Input, Other};
ghost use Rattle.wanted_entry.specs.declared.wanted.Wanted.{Wanted};

use crate::command::synopsis;
use crate::numbers::number;
use crate::request::{ByRole, Request, Source, given};
use crate::size::{MOST_WORKLOAD, Size};
use crate::table::{Ask, ROLES, Role, Task, Tasks, limits_named};
use clap::ArgMatches;
use clap::error::{Error, ErrorKind};
use fs_lang::{Path, PathFault};
use host_limits::Limits;
use rh_base::{NoMemory, Seq, Text};
use std::alloc::Global;
use wanted_entry::Wanted;

/// Why words ask for nothing.
#[derive(Clone, Copy, Debug, PartialEq, Eq)]
pub enum WordsFault {
    Refused,
    Memory(NoMemory),
}

impl From<NoMemory> for WordsFault {
    ghost use Rattle.std.specs.Prelude.{◌≡◌};
    ghost use Rattle.command_line.specs.declared.words.WordsFault.TheVariants.{Memory};

    ghost from_gives = { λ m e. e ≡ Memory m };

    fn from(m: NoMemory) -> Self {
        WordsFault::Memory(m)
    }
}

/// The value of an option, or of INPUT.
#[tactic(auto, using(crate::proofs::Rows::value_in_rows))]
fn value<'a>(matches: &ArgMatches<'a>, id: &str) -> Option<&'a str>
    ensures { option_map (λ s. s.now) result ≡ first_of id.now (rows_of (found_of matches.now)) }
{
    matches.get_str(id)
}

/// What `--ask` asks for; where it is left out, to verify.
fn ask_of(matches: &ArgMatches<'_>) -> Result<Ask, WordsFault>
    ensures { IsMade (ask_in (first_of (codes "ask") (rows_of (found_of matches.now)))) result }
{
    match value(matches, "ask") {
        None => Ok(Ask::Verify),
        Some(word) => Ask::named(word).ok_or(WordsFault::Refused),
    }
}

fn text(alloc: Global, word: &str) -> Result<Text, NoMemory>
    ensures { IfOk result (λ t. t ≡ word.now) }
{
    Ok(Text::from_string(String::from_str(alloc, word)?))
}

/// What is given for an option, which may stand or may not.
fn option(
    alloc: Global,
    matches: &ArgMatches<'_>,
    may: bool,
    id: &str,
) -> Result<Option<Text>, WordsFault>
    ensures { IsMade (taken may (first_of id.now (rows_of (found_of matches.now)))) result }
{
    let Some(word) = value(matches, id) else {
        return Ok(None);
    };
    if !may {
        return Err(WordsFault::Refused);
    }
    Ok(Some(text(alloc, word)?))
}

/// The most conflicts that may be given.
const MOST_CONFLICTS: u64 = 100_000_000;

/// The number that is given for an option, which may stand or may not.
fn counted(
    matches: &ArgMatches<'_>,
    may: bool,
    id: &str,
    most: u64,
) -> Result<Option<u64>, WordsFault>
    requires { most < 2 ^ 32 }
    ensures made { IsMade (taken_number may most (first_of id.now (rows_of (found_of matches.now)))) result }
    ensures range { IfOk result (IsWithin most) }
{
    let Some(word) = value(matches, id) else {
        return Ok(None);
    };
    if !may {
        return Err(WordsFault::Refused);
    }
    let n = number(word, most).ok_or(WordsFault::Refused)?;
    Ok(Some(n))
}

/// The size that is given for a workload, which may stand or may not.
fn size(matches: &ArgMatches<'_>, may: bool) -> Result<Option<Size>, WordsFault>
    ensures { IsMade (taken_number may MOST_WORKLOAD (first_of (codes "workload") (rows_of (found_of matches.now)))) result }
{
    match counted(matches, may, "workload", MOST_WORKLOAD)? {
        Some(n) => Ok(Some(Size::new(n))),
        None => Ok(None),
    }
}

/// Without limits that are given, those of a whole host where a compiled catalog is named, and else the usual ones.
fn limits_beside(compiled: Option<&str>) -> Limits
    ensures { result ≡ limits_beside (option_map (λ s. s.now) compiled.entry) }
{
    match compiled {
        Some(_) => Limits::Host,
        None => Limits::Usual,
    }
}

/// The limits that are given, which may be or may not; without any, the other ones.
fn limits(matches: &ArgMatches<'_>, may: bool, other: Limits) -> Result<Limits, WordsFault>
    ensures { IsMade (taken_limits may other (first_of (codes "limits") (rows_of (found_of matches.now)))) result }
{
    let Some(word) = value(matches, "limits") else {
        return Ok(other);
    };
    if !may {
        return Err(WordsFault::Refused);
    }
    limits_named(word).ok_or(WordsFault::Refused)
}

#[tactic(auto, using(crate::proofs::RoleLaws::refused, crate::proofs::RoleLaws::not_given, crate::proofs::RoleLaws::one_more, crate::proofs::RoleLaws::at_end, crate::proofs::RoleLaws::from_start))]
/// The names that are given for these files, of which those may stand that serve one of the tasks.
fn names_of(
    alloc: Global,
    matches: &ArgMatches<'_>,
    tasks: &Tasks,
    roles: &[Role],
) -> Result<ByRole<Text>, WordsFault>
    ensures { IsMade (names_in tasks.now (rows_of (found_of matches.now)) roles.now) result }
{
    let mut names = Seq::new(alloc);
    for role in roles {
        let may = tasks.has(role.task());
        match option(alloc, matches, may, role.word())? {
            Some(name) => names.push((*role, name))?,
            None => {},
        }
    }
    Ok(names)
}

/// The files of these names, of which one has to be the manifest to compare with where two are compared.
fn with_other(compares: bool, names: ByRole<Text>) -> Result<Source, WordsFault>
    ensures { IsMade (with_other compares names (load_of Other names)) result }
{
    if !compares {
        return Ok(Source::Files(names));
    }
    match given(names.as_slice(), Role::Other) {
        Some(_) => Ok(Source::Files(names)),
        None => Err(WordsFault::Refused),
    }
}

/// Whether the input is among these names, or a compiled catalog in its place.
fn has_input(names: &[(Role, Text)]) -> bool
    ensures { result ≡ is_some (option_or (load_of Compiled names.now) (load_of Input names.now)) }
{
    given(names, Role::Compiled).is_some() || given(names, Role::Input).is_some()
}

/// What is asked about: a workload, or files, of which one is the input or a compiled catalog, and one what it is compared with where two
/// are compared.
fn source(compares: bool, workload: Option<Size>, names: ByRole<Text>) -> Result<Source, WordsFault>
    ensures { IsMade (source_in compares workload names) result }
{
    if let Some(size) = workload {
        return Ok(Source::Workload(size));
    }
    if !has_input(names.as_slice()) {
        return Err(WordsFault::Refused);
    }
    with_other(compares, names)
}

#[tactic(auto, unfolding(crate::specs::Words::request_for))]
/// The request about this, with those options that serve one of the tasks.
fn request_for(
    alloc: Global,
    matches: &ArgMatches<'_>,
    ask: Ask,
    workload: Option<Size>,
    tasks: &Tasks,
) -> Result<Request, WordsFault>
    ensures made { IsMade (request_for ask workload tasks.now (rows_of (found_of matches.now))) result }
    ensures plain { IfOk result (λ request. request.wanted ≡ None) }
{
    let names = names_of(alloc, matches, tasks, &ROLES)?;
    let source = source(tasks.has(Task::Compare), workload, names)?;
    let node = option(alloc, matches, tasks.has(Task::Compile), "node")?;
    let conflicts = counted(matches, tasks.has(Task::Judge), "conflicts", MOST_CONFLICTS)?;
    let other = limits_beside(value(matches, "compiled"));
    let large = limits(matches, tasks.has(Task::Plan), other)?;
    Ok(Request {
        ask,
        node,
        conflicts,
        limits: large,
        wanted: None,
        source,
    })
}

/// What is asked for, an entry that is wanted aside, where no option stands that may not.
#[tactic(auto, using(crate::proofs::RoleLaws::whole))]
fn plain_request(alloc: Global, matches: &ArgMatches<'_>) -> Result<Request, WordsFault>
    ensures made { IsMade (request_in (rows_of (found_of matches.now))) result }
    ensures plain { IfOk result (λ request. request.wanted ≡ None) }
{
    let ask = ask_of(matches)?;
    let workload = size(matches, ask.tasks().has(Task::Load))?;
    let compiled = value(matches, "compiled");
    let tasks = ask.tasks().with_catalog(compiled).beside(&workload);
    request_for(alloc, matches, ask, workload, &tasks)
}

/// The entry at the path that a text names, with this content, if one is given.
fn entry_at(alloc: Global, path: &str, content: Option<&str>) -> Result<Wanted, WordsFault>
    ensures made { IfOk result (IsEntryAt path.now (option_map (λ s. s.now) content.entry)) }
    ensures refused { IfErr result (λ e. IfRefused e ((w : Wanted) → IsEntryAt path.now (option_map (λ s. s.now) content.entry) w → ⊥)) }
{
    let path = match Path::read(alloc, path) {
        Ok(path) => path,
        Err(PathFault::Bad) => return Err(WordsFault::Refused),
        Err(PathFault::Memory(m)) => return Err(WordsFault::Memory(m)),
    };
    if path.segments().is_empty() {
        return Err(WordsFault::Refused);
    }
    let content = match content {
        Some(word) => Some(text(alloc, word)?),
        None => None,
    };
    Ok(Wanted { path, content })
}

/// The entry that is wanted, where one may be; nothing is given of one where none may.
fn wanted(alloc: Global, matches: &ArgMatches<'_>, may: bool) -> Result<Option<Wanted>, WordsFault>
    ensures made { IfOk result
        (IsWanted may (first_of (codes "path") (rows_of (found_of matches.now)))
        (first_of (codes "content") (rows_of (found_of matches.now)))) }
    ensures refused { IfErr result (λ e. IfRefused e ((w : Option Wanted)
        → IsWanted may (first_of (codes "path") (rows_of (found_of matches.now)))
        (first_of (codes "content") (rows_of (found_of matches.now))) w → ⊥)) }
{
    let content = value(matches, "content");
    match (may, value(matches, "path")) {
        (true, Some(path)) => Ok(Some(entry_at(alloc, path, content)?)),
        (true, None) => Err(WordsFault::Refused),
        (false, Some(_)) => Err(WordsFault::Refused),
        (false, None) => match content {
            Some(_) => Err(WordsFault::Refused),
            None => Ok(None),
        },
    }
}

/// What is asked for, where no option stands that may not.
fn request_of(alloc: Global, matches: &ArgMatches<'_>) -> Result<Request, WordsFault>
    ensures made { IfOk result (IsGiven (rows_of (found_of matches.now))) }
    ensures refused { IfErr result (λ e. IfRefused e ((request : Request) → IsGiven (rows_of (found_of matches.now)) request → ⊥)) }
{
    let mut request = plain_request(alloc, matches)?;
    request.wanted = wanted(alloc, matches, request.ask.tasks().has(Task::Want))?;
    Ok(request)
}

/// Whether memory was refused.
fn lacks_memory(fault: &Error) -> bool
    ensures { IsTrue result ↔ (kind_of fault.now ≡ OutOfMemory) }
{
    fault.kind() == ErrorKind::OutOfMemory
}

/// What `clap` makes of the words.
fn parsed<'a>(alloc: Global, words: &'a [String]) -> Result<ArgMatches<'a>, WordsFault>
    ensures taken { OnOk result (fault_of synopsis (map string_bytes words.entry.now) ≡ []) }
    ensures rows { IfOk result (λ m. rows_of (found_of m) ≡ matches_of synopsis (map string_bytes words.entry.now)) }
    ensures refused { IfErr result (λ e. IfRefused e (fault_of synopsis (map string_bytes words.entry.now) ≢ [])) }
{
    let command = synopsis(alloc)?;
    match command.try_get_matches_from(words) {
        Ok(matches) => Ok(matches),
        Err(fault) => {
            if lacks_memory(&fault) {
                return Err(WordsFault::Memory(NoMemory));
            }
            Err(WordsFault::Refused)
        }
    }
}

/// The request that the words make.
pub fn read_request(alloc: Global, words: &[String]) -> Result<Request, WordsFault>
    ensures made { IfOk result (λ request. Makes (map string_bytes words.now) request) }
    // The words are refused exactly where they make none.
    ensures refused { IfErr result (λ e. IfRefused e ((request : Request) → Makes (map string_bytes words.now) request → ⊥)) }
{
    let matches = parsed(alloc, words)?;
    request_of(alloc, &matches)
}
