//! Attributes that are read otherwise than they stand in the text.

use super::told::told;
use rh_base::NoMemory;
use std::alloc::Global;
use std::test::Fail;
use test_rows::{joined, same};

fn is_told(alloc: Global, kind: &str, parameters: &str, want: &str) -> Result<(), Fail> {
    let shown = told(alloc, kind, parameters)?;
    same(alloc, parameters, shown.as_str(), want)
}

/// Each row: a type, the parameters of a resource, and its attributes.
fn are_told(alloc: Global, rows: &[(&str, &str, &str)]) -> Result<(), Fail> {
    for (kind, parameters, want) in rows {
        is_told(alloc, *kind, *parameters, *want)?;
    }
    Ok(())
}

#[test]
fn attributes_that_are_read(rt: HostRuntime) -> Result<(), Fail> {
    are_told(
        rt.alloc(),
        &[
            // in the byte order of names, and undef is left out
            (
                "file",
                r#"{"owner":"root","content":"hi","mode":null,"Z":1,"group":0}"#,
                "File[/t] Z=1 content=hi group=0 owner=root\n",
            ),
            ("package", r#"{}"#, "Package[/t]\n"),
            // of every type
            (
                "file",
                r#"{"alias":"a","audit":"all","loglevel":"err","tag":["x"],"noop":false,"schedule":"s"}"#,
                "File[/t] schedule=s\n",
            ),
            (
                "exec",
                r#"{"alias":["a"],"audit":1,"loglevel":{},"tag":"x","noop":"false","command":"/bin/true"}"#,
                "Exec[/t] command=/bin/true\n",
            ),
            (
                "user",
                r#"{"noop":true,"uid":3}"#,
                "User[/t] uid=3 (noop)\n",
            ),
            ("exec", r#"{"noop":"true"}"#, "Exec[/t] (noop)\n"),
            // another value of `noop` stays
            ("file", r#"{"noop":"yes"}"#, "File[/t] noop=yes\n"),
            ("file", r#"{"noop":1}"#, "File[/t] noop=1\n"),
            // rows of files are of files alone
            (
                "user",
                r#"{"ensure":"/x","recurse":true,"purge":true,"force":true,"replace":true,"ignore":"a","checksum_value":"1","source":["puppet:///a"]}"#,
                "User[/t] checksum_value=1 ensure=/x force=true ignore=a purge=true recurse=true replace=true source=[puppet:///a]\n",
            ),
        ],
    )
}

// Values that hold an opaque one: those of attributes on which a model rests stay, and so do relations.

#[test]
fn opaque_values_of_execs_and_files(rt: HostRuntime) -> Result<(), Fail> {
    are_told(
        rt.alloc(),
        &[
            (
                "exec",
                r#"{"ensure":1.5,"command":"a","env":[1,[2.5]],"h":{"a":{"b":0.5}}}"#,
                "Exec[/t] command=a\n",
            ),
            (
                "exec",
                r#"{"before":1.5,"notify":[2.5],"require":{"a":0.5},"subscribe":"File[/x]"}"#,
                "Exec[/t] before=opaque notify=opaque require=opaque subscribe=File[/x]\n",
            ),
            ("exec", r#"{"noop":1.5}"#, "Exec[/t]\n"),
            (
                "file",
                r#"{"ensure":1.5,"path":1.5,"content":1.5,"source":[1.5],"target":1.5,"owner":1.5,"group":1.5}"#,
                "File[/t] content=opaque ensure=opaque group=opaque owner=opaque path=opaque source=opaque target=opaque\n",
            ),
            (
                "file",
                r#"{"recurse":1.5,"purge":1.5,"force":1.5,"replace":1.5,"noop":1.5}"#,
                "File[/t]\n",
            ),
            (
                "file",
                r#"{"mode":1.5,"backup":[0.5],"other":1.5,"checksum":{"a":1.5}}"#,
                "File[/t]\n",
            ),
            (
                "file",
                r#"{"content":{"__ptype":"Sensitive","__pvalue":"pw"},"owner":{"__ptype":"Deferred","name":"f"},"mode":{"__ptype":"Deferred","name":"f"}}"#,
                "File[/t] content=pw owner=opaque\n",
            ),
        ],
    )
}

#[test]
fn opaque_values_of_other_types(rt: HostRuntime) -> Result<(), Fail> {
    are_told(
        rt.alloc(),
        &[
            (
                "package",
                r#"{"name":1.5,"ensure":0.5,"source":1.5,"install_options":[1.5]}"#,
                "Package[/t] ensure=opaque name=opaque\n",
            ),
            (
                "user",
                r#"{"name":1.5,"gid":1.5,"groups":["a",1.5],"home":1.5,"managehome":1.5,"uid":1.5,"shell":1.5}"#,
                "User[/t] gid=opaque groups=opaque home=opaque managehome=opaque name=opaque\n",
            ),
            (
                "group",
                r#"{"name":1.5,"gid":1.5,"system":1.5}"#,
                "Group[/t] name=opaque\n",
            ),
            (
                "service",
                r#"{"name":1.5,"enable":1.5,"ensure":1.5,"timeout":1.5}"#,
                "Service[/t] enable=opaque ensure=opaque name=opaque\n",
            ),
            (
                "cron",
                r#"{"name":1.5,"command":1.5,"user":1.5,"minute":1.5,"hour":1.5,"monthday":1.5,"month":1.5,"weekday":1.5,"special":1.5,"environment":1.5}"#,
                "Cron[/t] command=opaque hour=opaque minute=opaque month=opaque monthday=opaque name=opaque special=opaque user=opaque weekday=opaque\n",
            ),
            (
                "ssh_authorized_key",
                r#"{"name":1.5,"user":1.5,"type":1.5,"key":1.5,"options":1.5}"#,
                "Ssh_authorized_key[/t] key=opaque name=opaque type=opaque user=opaque\n",
            ),
        ],
    )
}

/// The line of a file with these attributes.
fn line(alloc: Global, attributes: &str) -> Result<String, NoMemory> {
    if attributes.is_empty() {
        joined(alloc, &["File[/t]\n"])
    } else {
        joined(alloc, &["File[/t] ", attributes, "\n"])
    }
}

fn is_of_file(alloc: Global, parameters: &str, attributes: &str) -> Result<(), Fail> {
    let want = line(alloc, attributes)?;
    is_told(alloc, "file", parameters, want.as_str())
}

/// Each row: the parameters of a file, and its attributes.
fn are_of_files(alloc: Global, rows: &[(&str, &str)]) -> Result<(), Fail> {
    for (parameters, attributes) in rows {
        is_of_file(alloc, *parameters, *attributes)?;
    }
    Ok(())
}

#[test]
fn short_links(rt: HostRuntime) -> Result<(), Fail> {
    are_of_files(
        rt.alloc(),
        &[
            (r#"{"ensure":"/x"}"#, "ensure=link target=/x"),
            (r#"{"ensure":"/x","target":null}"#, "ensure=link target=/x"),
            (r#"{"ensure":"/x","target":"/y"}"#, "ensure=/x target=/y"),
            (r#"{"ensure":"x/y"}"#, "ensure=x/y"),
            (r#"{"ensure":["/x"]}"#, "ensure=[/x]"),
            (
                r#"{"ensure":"link","target":"/y"}"#,
                "ensure=link target=/y",
            ),
        ],
    )
}

#[test]
fn folders_with_all_below(rt: HostRuntime) -> Result<(), Fail> {
    are_of_files(
        rt.alloc(),
        &[
            (
                r#"{"ensure":"directory","recurse":true}"#,
                "ensure=directory",
            ),
            (
                r#"{"ensure":"directory","recurse":"true","purge":false}"#,
                "ensure=directory purge=false",
            ),
            (
                r#"{"recurse":true,"purge":null,"source":null,"target":null}"#,
                "",
            ),
            (
                r#"{"recurse":true,"source":"/s"}"#,
                "recurse=true source=/s",
            ),
            (
                r#"{"recurse":true,"target":"/s"}"#,
                "recurse=true target=/s",
            ),
            (
                r#"{"recurse":true,"purge":true}"#,
                "purge=true recurse=true",
            ),
            (
                r#"{"recurse":true,"purge":"true"}"#,
                "purge=true recurse=true",
            ),
            (r#"{"recurse":true,"purge":"yes"}"#, "purge=yes"),
            (r#"{"recurse":false}"#, "recurse=false"),
            (r#"{"recurse":"remote"}"#, "recurse=remote"),
            (r#"{"recurse":true,"ensure":"/x"}"#, "ensure=link target=/x"),
        ],
    )
}

#[test]
fn purged_folders(rt: HostRuntime) -> Result<(), Fail> {
    are_of_files(
        rt.alloc(),
        &[
            (r#"{"purge":true}"#, ""),
            (r#"{"purge":"true","recurse":"false"}"#, "recurse=false"),
            (r#"{"purge":true,"recurse":null}"#, ""),
            (
                r#"{"purge":true,"recurse":"inf"}"#,
                "purge=true recurse=inf",
            ),
            (
                r#"{"purge":false,"recurse":false}"#,
                "purge=false recurse=false",
            ),
        ],
    )
}

#[test]
fn forced_files(rt: HostRuntime) -> Result<(), Fail> {
    are_of_files(
        rt.alloc(),
        &[
            (r#"{"force":true,"ensure":"directory"}"#, "ensure=directory"),
            (
                r#"{"force":"true","ensure":"directory","purge":false,"recurse":true}"#,
                "ensure=directory purge=false",
            ),
            (
                r#"{"force":true,"ensure":"directory","purge":true,"recurse":true}"#,
                "ensure=directory force=true purge=true recurse=true",
            ),
            (
                r#"{"force":true,"ensure":"directory","purge":true}"#,
                "ensure=directory force=true",
            ),
            (
                r#"{"force":true,"ensure":"absent"}"#,
                "ensure=absent force=true",
            ),
            (r#"{"force":true}"#, "force=true"),
            (
                r#"{"force":false,"ensure":"directory"}"#,
                "ensure=directory force=false",
            ),
        ],
    )
}

#[test]
fn sources_of_files(rt: HostRuntime) -> Result<(), Fail> {
    are_of_files(
        rt.alloc(),
        &[
            (r#"{"source":"puppet:///m/a"}"#, "source=puppet:///m/a"),
            (
                r#"{"source":["puppet:///m/a"]}"#,
                r#"source=puppet:["puppet:///m/a"]"#,
            ),
            (
                r#"{"source":["http://h/\"a","https://h/b"]}"#,
                r#"source=puppet:["http://h/\"a","https://h/b"]"#,
            ),
            (r#"{"source":[]}"#, "source=[]"),
            (
                r#"{"source":["puppet:///m/a","/b"]}"#,
                "source=[puppet:///m/a, /b]",
            ),
            (
                r#"{"source":[["puppet:///m/a"]]}"#,
                "source=[[puppet:///m/a]]",
            ),
            (
                r#"{"source":["puppet:///m/a",null]}"#,
                "source=[puppet:///m/a, ]",
            ),
        ],
    )
}

#[test]
fn parameters_of_files_that_are_not_looked_at(rt: HostRuntime) -> Result<(), Fail> {
    are_of_files(
        rt.alloc(),
        &[
            (
                r#"{"checksum_value":"1","selinux_ignore_defaults":true,"checksum":"md5"}"#,
                "checksum=md5",
            ),
            (r#"{"ignore":["*.bak"]}"#, ""),
            (r#"{"ignore":"*.bak","recurse":null}"#, ""),
            (
                r#"{"ignore":"*.bak","recurse":false}"#,
                "ignore=*.bak recurse=false",
            ),
            (r#"{"ignore":"*.bak","recurse":true}"#, "ignore=*.bak"),
            (r#"{"replace":true}"#, ""),
            (r#"{"replace":"true"}"#, ""),
            (r#"{"replace":false}"#, "replace=false"),
            (r#"{"replace":"no"}"#, "replace=no"),
        ],
    )
}
