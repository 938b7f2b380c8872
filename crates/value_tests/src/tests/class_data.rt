//! Rows of class data: what the levels say of a parameter, and which texts are refused.
use super::answers::facts_of;
use pp_data::{Data, data_from_json};
use pp_value::{Value, show};
use rh_base::{Boxed, Fault, NoMemory};
use std::alloc::Global;
use std::test::Fail;
use test_rows::{Pieces, joined, nested, refused, same, same_at, same_number, same_of};

/// A level for machines in production, and one for all.
const TWO_LEVELS: &str =
    "{\"levels\":[{\"when\":{\"env\":\"prod\"},\"values\":{\"c::p\":\"y\"}},{\"values\":{\"c::p\":\"z\"}}]}";

fn text_of(alloc: Global, value: &Value) -> Result<String, NoMemory> {
    match show(alloc, value) {
        Ok(text) => Ok(text.into_string()),
        Err(_) => joined(alloc, &["no text"]),
    }
}

/// A value as it is shown, or `none`.
fn shown(alloc: Global, found: &Option<Value>) -> Result<String, NoMemory> {
    match found {
        Some(value) => text_of(alloc, value),
        None => joined(alloc, &["none"]),
    }
}

/// What data have for the parameter `p` of a class.
fn looked_up(alloc: Global, data: &Data, facts: &Value, class: &str) -> Result<String, NoMemory> {
    let found = Boxed::new(alloc, data.find(alloc, facts, class, "p")?)?;
    shown(alloc, found.get())
}

/// The same, of a text of facts.
fn found_in(alloc: Global, data: &Data, facts: &str, class: &str) -> Result<String, Fault> {
    let facts = facts_of(alloc, facts.as_bytes())?;
    Ok(looked_up(alloc, data, facts.get(), class)?)
}

/// The same, of a text of data and a text of facts.
fn found(alloc: Global, data: &str, facts: &str, class: &str) -> Result<String, Fault> {
    let data = data_from_json(alloc, data.as_bytes())?;
    found_in(alloc, &data, facts, class)
}

fn is_found(alloc: Global, data: &str, facts: &str, class: &str, want: &str) -> Result<(), Fail> {
    let value = found(alloc, data, facts, class)?;
    same_of(alloc, &[facts, " ", class], value.as_str(), want)
}

/// Each row: facts, a class, and what a text of data has for its parameter `p` under these facts.
fn are_found(alloc: Global, data: &str, rows: &[(&str, &str, &str)]) -> Result<(), Fail> {
    for (facts, class, want) in rows {
        is_found(alloc, data, *facts, *class, *want)?;
    }
    Ok(())
}

#[test]
fn the_first_level_that_applies_counts(rt: HostRuntime) -> Result<(), Fail> {
    are_found(
        rt.alloc(),
        TWO_LEVELS,
        &[
            ("{\"env\":\"Prod\"}", "c", "y"),
            ("{}", "c", "z"),
            ("{\"env\":\"test\"}", "c", "z"),
            ("{\"ENV\":\"prod\"}", "c", "z"),
            ("{\"env\":\"prod\"}", "::C", "y"),
            ("{\"env\":\"prod\"}", "C", "y"),
            ("{\"env\":\"prod\"}", "d", "none"),
        ],
    )
}

/// Values in which the parameter is 7.
const SEVEN: &str = "{\"c::p\":7}";

/// What one level has for `c::p`, of the texts of its `when`, its `values` and the facts.
fn in_level(alloc: Global, when: &str, values: &str, facts: &str) -> Result<String, Fault> {
    let text = joined(
        alloc,
        &[
            "{\"levels\":[{\"when\":",
            when,
            ",\"values\":",
            values,
            "}]}",
        ],
    )?;
    found(alloc, text.as_str(), facts, "c")
}

fn is_in_level(
    alloc: Global,
    when: &str,
    values: &str,
    facts: &str,
    want: &str,
) -> Result<(), Fail> {
    let value = in_level(alloc, when, values, facts)?;
    same_of(alloc, &[when, " ", values], value.as_str(), want)
}

/// Each row: a `when` and values of one level, facts, and what the level has for `c::p` under these.
fn are_in_level(alloc: Global, rows: &[(&str, &str, &str, &str)]) -> Result<(), Fail> {
    for (when, values, facts, want) in rows {
        is_in_level(alloc, *when, *values, *facts, *want)?;
    }
    Ok(())
}

#[test]
fn a_level_asks_for_each_fact(rt: HostRuntime) -> Result<(), Fail> {
    are_in_level(
        rt.alloc(),
        &[
            // an opaque number meets nothing, not even itself
            ("{\"n\":1.5}", SEVEN, "{\"n\":1.5}", "none"),
            ("{\"n\":[1.5]}", SEVEN, "{\"n\":2}", "none"),
            // what isn't there isn't null
            ("{\"n\":null}", SEVEN, "{}", "none"),
            ("{\"n\":null}", SEVEN, "{\"n\":null}", "7"),
            ("{\"a\":1,\"b\":2}", SEVEN, "{\"a\":1,\"b\":3}", "none"),
            ("{\"a\":1,\"b\":2}", SEVEN, "{\"b\":2,\"a\":1}", "7"),
            // maps in any order, texts of any case
            (
                "{\"os\":{\"x\":\"A\",\"y\":[1]}}",
                SEVEN,
                "{\"os\":{\"y\":[1],\"x\":\"a\"}}",
                "7",
            ),
            ("{}", SEVEN, "{}", "7"),
        ],
    )
}

#[test]
fn values_are_read_as_facts_are(rt: HostRuntime) -> Result<(), Fail> {
    are_in_level(
        rt.alloc(),
        &[
            ("{}", "{\"c::p\":null}", "{}", "none"),
            ("{}", "{}", "{}", "none"),
            (
                "{}",
                "{\"c::p\":[1,{\"k\":false}]}",
                "{}",
                "[1, {k => false}]",
            ),
            // nothing is put into texts
            ("{}", "{\"c::p\":\"%{env}\"}", "{}", "%{env}"),
            // any text is a key, and keys are compared exactly
            ("{}", "{\"\":1,\"C::p\":2,\"p\":3}", "{}", "none"),
            // of equal keys the last counts
            ("{}", "{\"c::p\":1,\"c::p\":2}", "{}", "2"),
        ],
    )
}

#[test]
fn null_passes_on(rt: HostRuntime) -> Result<(), Fail> {
    are_found(
        rt.alloc(),
        "{\"levels\":[{\"values\":{\"c::p\":null}},{\"values\":{\"c::p\":\"z\"}}]}",
        &[("{}", "c", "z")],
    )
}

/// The refusal of a text of data, or `read`.
fn told_of_data(alloc: Global, text: &[u8]) -> Result<String, NoMemory> {
    match data_from_json(alloc, text) {
        Ok(_) => joined(alloc, &["read"]),
        Err(fault) => refused(alloc, &fault),
    }
}

fn is_told(alloc: Global, row: &str, text: &[u8], want: &str) -> Result<(), Fail> {
    let told = told_of_data(alloc, text)?;
    same(alloc, row, told.as_str(), want)
}

/// Each row: a text of data, which is refused.
fn are_refused(alloc: Global, texts: &[&str]) -> Result<(), Fail> {
    for text in texts {
        is_told(alloc, *text, text.as_bytes(), "64 at 0: data")?;
    }
    Ok(())
}

#[test]
fn other_texts_are_refused(rt: HostRuntime) -> Result<(), Fail> {
    are_refused(
        rt.alloc(),
        &[
            "{\"levels\":{}}",
            "{}",
            "[]",
            "",
            "{\"levels\":[",
            "{\"levels\":[],\"merge\":true}",
            "{\"Levels\":[]}",
            "{\"levels\":[7]}",
            "{\"levels\":[{}]}",
            "{\"levels\":[{\"values\":{},\"name\":\"n\"}]}",
            "{\"levels\":[{\"values\":null}]}",
            "{\"levels\":[{\"when\":null,\"values\":{}}]}",
            "{\"levels\":[{\"when\":\"env\",\"values\":{}}]}",
            "{\"levels\":[{\"values\":{}},{\"when\":{}}]}",
        ],
    )
}

#[test]
fn other_bytes_are_refused(rt: HostRuntime) -> Result<(), Fail> {
    is_told(
        rt.alloc(),
        "a byte that is no text",
        b"{\"levels\":[{\"values\":{\"c::p\":\"\xff\"}}]}",
        "64 at 0: data",
    )
}

#[test]
fn blanks_are_not_refused(rt: HostRuntime) -> Result<(), Fail> {
    is_told(
        rt.alloc(),
        "blanks",
        b" {\"levels\" : [ {\"values\":{}} ] } ",
        "read",
    )
}

/// What a copy of data has for `c::p`, under a text of facts.
fn found_in_copy(alloc: Global, data: &Data, facts: &str) -> Result<String, Fault> {
    let copy = data.copy(alloc)?;
    found_in(alloc, &copy, facts, "c")
}

fn found_in_two_levels(alloc: Global, facts: &str) -> Result<String, Fault> {
    let data = data_from_json(alloc, TWO_LEVELS.as_bytes())?;
    found_in_copy(alloc, &data, facts)
}

fn is_found_in_copy(alloc: Global, facts: &str, want: &str) -> Result<(), Fail> {
    let value = found_in_two_levels(alloc, facts)?;
    same(alloc, facts, value.as_str(), want)
}

#[test]
fn a_copy_has_the_same_for_production(rt: HostRuntime) -> Result<(), Fail> {
    is_found_in_copy(rt.alloc(), "{\"env\":\"prod\"}", "y")
}

#[test]
fn a_copy_has_the_same_for_all(rt: HostRuntime) -> Result<(), Fail> {
    is_found_in_copy(rt.alloc(), "{}", "z")
}

/// What data have for `c::p` where the facts are no map.
fn found_without_facts(alloc: Global, data: &Data) -> Result<String, NoMemory> {
    let facts = Boxed::new(alloc, Value::Undef)?;
    looked_up(alloc, data, facts.get(), "c")
}

fn is_found_without_facts(alloc: Global, data: &Data, want: &str) -> Result<(), Fail> {
    let value = found_without_facts(alloc, data)?;
    same(alloc, "no facts", value.as_str(), want)
}

#[test]
fn facts_that_are_no_map_have_no_keys(rt: HostRuntime) -> Result<(), Fail> {
    let levels = data_from_json(rt.alloc(), TWO_LEVELS.as_bytes())?;
    is_found_without_facts(rt.alloc(), &levels, "z")
}

#[test]
fn empty_data_have_nothing(rt: HostRuntime) -> Result<(), Fail> {
    let empty = Data::empty(rt.alloc());
    is_found_without_facts(rt.alloc(), &empty, "none")
}

/// The number of the refusal of a text of facts, or 0.
fn refused_facts(alloc: Global, text: &[u8]) -> u64 {
    match facts_of(alloc, text) {
        Err(Fault::Refused(refusal)) => refusal.number as u64,
        _ => 0,
    }
}

fn is_refused_facts(alloc: Global, text: &str, want: u64) -> Result<(), Fail> {
    same_number(alloc, text, refused_facts(alloc, text.as_bytes()), want)
}

/// Each row: a text of facts, and the number of its refusal, or 0.
fn are_refused_facts(alloc: Global, rows: &[(&str, u64)]) -> Result<(), Fail> {
    for (text, want) in rows {
        is_refused_facts(alloc, *text, *want)?;
    }
    Ok(())
}

#[test]
fn facts_are_a_json_object(rt: HostRuntime) -> Result<(), Fail> {
    are_refused_facts(
        rt.alloc(),
        &[
            ("[1]", 60),
            ("{\"a\": }", 60),
            ("{\"a\": 1}", 0),
            ("", 60),
            ("{} {}", 60),
        ],
    )
}

#[test]
fn facts_are_a_text(rt: HostRuntime) -> Result<(), Fail> {
    let number = refused_facts(rt.alloc(), b"{\"a\": \"\xff\"}");
    same_number(rt.alloc(), "a byte that is no text", number, 60)
}

/// A map whose one value is lists within one another.
const FACTS_OF_LISTS: Pieces = ("{\"a\":", "[", "", "]");

/// The number of the refusal of facts that nest so many lists in their map, or 0.
fn refused_lists(alloc: Global, lists: usize) -> Result<u64, Fail> {
    let mut text = nested(alloc, &FACTS_OF_LISTS, lists)?;
    text.push_str("}")?;
    Ok(refused_facts(alloc, text.as_bytes()))
}

#[test]
fn facts_nest_a_few_levels(rt: HostRuntime) -> Result<(), Fail> {
    same_number(rt.alloc(), "126 lists", refused_lists(rt.alloc(), 126)?, 0)
}

#[test]
fn facts_nest_no_more_levels(rt: HostRuntime) -> Result<(), Fail> {
    same_number(rt.alloc(), "127 lists", refused_lists(rt.alloc(), 127)?, 60)
}

/// Class data of one value, lists within one another; four levels stand around it.
const DATA_OF_LISTS: Pieces = ("{\"levels\":[{\"values\":{\"c::p\":", "[", "", "]");

/// The refusal of class data in which a value nests so many lists, or `read`.
fn told_of_lists(alloc: Global, lists: usize) -> Result<String, NoMemory> {
    let mut text = nested(alloc, &DATA_OF_LISTS, lists)?;
    text.push_str("}}]}")?;
    told_of_data(alloc, text.as_bytes())
}

fn lists_are_told(alloc: Global, lists: usize, want: &str) -> Result<(), Fail> {
    let told = told_of_lists(alloc, lists)?;
    same_at(alloc, lists as u64, "lists", told.as_str(), want)
}

#[test]
fn class_data_nest_a_few_levels(rt: HostRuntime) -> Result<(), Fail> {
    lists_are_told(rt.alloc(), 123, "read")
}

#[test]
fn class_data_nest_no_more_levels(rt: HostRuntime) -> Result<(), Fail> {
    lists_are_told(rt.alloc(), 124, "64 at 0: data")
}
