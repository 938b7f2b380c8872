//! The manifest of a workload.

ghost use Rattle.std.specs.Prelude.{◌≡◌, ◌++◌, ◌≤◌, IfOk, OnOk};
ghost use Rattle.workload.specs.Workload.{package_line, file_line, service_line, group_lines, groups, manifest_text};

use rh_base::{NoMemory, Text};
use std::alloc::Global;

fn push_package(alloc: Global, i: u32, into: &mut Text) -> Result<(), NoMemory>
    ensures { OnOk result (into.new ≡ into.old ++ package_line i) }
{
    let line = format!(in alloc; "package {{ 'p{i}': }}\n")?;
    into.push(line.as_str())
}

fn push_file(alloc: Global, i: u32, into: &mut Text) -> Result<(), NoMemory>
    ensures { OnOk result (into.new ≡ into.old ++ file_line i) }
{
    let line = format!(in alloc;
        "file {{ '/opt/p{i}/p.conf': content => '{i}', require => Package['p{i}'] }}\n"
    )?;
    into.push(line.as_str())
}

fn push_service(alloc: Global, i: u32, into: &mut Text) -> Result<(), NoMemory>
    ensures { OnOk result (into.new ≡ into.old ++ service_line i) }
{
    let line = format!(in alloc;
        "service {{ 'svc{i}': ensure => running, require => Package['p{i}'] }}\n"
    )?;
    into.push(line.as_str())
}

#[tactic(auto, unfolding(crate::specs::Workload::group_lines))]
/// Adds a package with a file and a service of it, a line for each.
fn push_group(alloc: Global, i: u32, into: &mut Text) -> Result<(), NoMemory>
    ensures { OnOk result (into.new ≡ into.old ++ group_lines i) }
{
    push_package(alloc, i, into)?;
    push_file(alloc, i, into)?;
    push_service(alloc, i, into)
}

/// Adds so many of these.
fn push_groups(alloc: Global, n: u32, into: &mut Text) -> Result<(), NoMemory>
    requires { n ≤ 54 }
    ensures { OnOk result (into.new ≡ into.old ++ groups n) }
{
    for i in 0..n {
        push_group(alloc, i + 1, into)?;
    }
    Ok(())
}

/// So many packages, each with a file and a service; and two packages with a file each, all of which pruning keeps.
pub fn manifest_text(alloc: Global, n: u32) -> Result<Text, NoMemory>
    requires { n ≤ 54 }
    ensures { IfOk result (λ text. text ≡ manifest_text n) }
{
    let mut text = Text::new(alloc);
    push_groups(alloc, n, &mut text)?;
    text.push(
        "package { 'alpha': }\nfile { '/etc/alpha.conf': content => 'a', require => Package['alpha'] }\npackage { 'beta': }\nfile { '/etc/beta.conf': content => 'b', require => Package['beta'] }\n",
    )?;
    Ok(text)
}
