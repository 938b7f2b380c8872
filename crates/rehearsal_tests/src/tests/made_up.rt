//! Manifests that are made up: packages with files and services, and users with homes, each with its arrow or without it.

use std::alloc::Global;
use std::test::Fail;
use test_rows::joined;

/// The packages: each has a file of its own folder and a unit of its name. The first two have one file with two contents.
pub const LISTING: &str = concat!(
    r#"{"version":2,"packages":{"#,
    r#""ntp":{"files":[["/etc/ntp/a",null],["/opt/shared","d1"],["/lib/systemd/system/ntp.service",null]],"folders":[]},"#,
    r#""ssh":{"files":[["/etc/ssh/a",null],["/opt/shared","d2"],["/lib/systemd/system/ssh.service",null]],"folders":[]},"#,
    r#""it's":{"files":[["/etc/it's/a",null],["/lib/systemd/system/it's.service",null]],"folders":["/srv/it's"]},"#,
    r#""back\\slash":{"files":[["/etc/back\\slash/a",null],["/lib/systemd/system/back\\slash.service",null]],"folders":[]}}}"#
);

/// Names of packages, as they stand in quotes.
const NAMES: [&str; 2] = [r"it\'s", r"back\\slash"];

/// What goes with a package: a file right in /etc, one in the package's folder, and its service, each with its name in the middle.
const PARTS: [(&str, &str); 3] = [
    ("file { '/etc/", ".conf': content => 'x'"),
    ("file { '/etc/", "/b': content => 'x'"),
    ("service { '", "': ensure => running"),
];

/// What stands beside these.
const OTHERS: [&str; 6] = [
    "file { '/etc': ensure => directory }",
    "user { 'u': gid => 'g', managehome => true, home => '/home/u' }",
    "group { 'g': }",
    "file { '/home/u/a': content => 'x' }",
    "package { 'ntp': }",
    "package { 'ssh': }",
];

/// Coins that fall the same way each time.
#[derive(Drop)]
struct Coins {
    state: u32,
}

impl Coins {
    fn is_head(&mut self) -> bool {
        self.state = self
            .state
            .wrapping_mul(1_664_525)
            .wrapping_add(1_013_904_223);
        self.state >> 31 == 1
    }

    /// In three of four cases.
    fn is_usual(&mut self) -> bool {
        let one = self.is_head();
        let other = self.is_head();
        one || other
    }
}

/// Puts a line ahead of the manifest or behind it.
fn put(alloc: Global, coins: &mut Coins, line: &str, manifest: &mut String) -> Result<(), Fail> {
    let held = joined(alloc, &[line, "\n"])?;
    if coins.is_head() {
        manifest.insert_str(0, held.as_str())?;
    } else {
        manifest.push_str(held.as_str())?;
    }
    Ok(())
}

/// The line of a part of a package, with its arrow or without it.
fn part_line(
    alloc: Global,
    part: (&str, &str),
    name: &str,
    is_plain: bool,
) -> Result<String, Fail> {
    let (front, back) = part;
    if is_plain {
        return Ok(joined(alloc, &[front, name, back, " }"])?);
    }
    Ok(joined(
        alloc,
        &[front, name, back, ", require => Package['", name, "'] }"],
    )?)
}

/// Puts a part of a package, with its arrow or without it.
fn put_part(
    alloc: Global,
    coins: &mut Coins,
    part: (&str, &str),
    name: &str,
    manifest: &mut String,
) -> Result<(), Fail> {
    let is_plain = coins.is_head();
    let line = part_line(alloc, part, name, is_plain)?;
    put(alloc, coins, line.as_str(), manifest)
}

/// Puts a package.
fn put_name(
    alloc: Global,
    coins: &mut Coins,
    name: &str,
    manifest: &mut String,
) -> Result<(), Fail> {
    let line = joined(alloc, &["package { '", name, "': }"])?;
    put(alloc, coins, line.as_str(), manifest)
}

/// Puts a package and some of what goes with it.
fn put_package(
    alloc: Global,
    coins: &mut Coins,
    name: &str,
    manifest: &mut String,
) -> Result<(), Fail> {
    put_name(alloc, coins, name, manifest)?;
    for part in PARTS {
        if coins.is_usual() {
            put_part(alloc, coins, part, name, manifest)?;
        }
    }
    Ok(())
}

/// Puts some of the packages, each with some of what goes with it.
fn put_packages(alloc: Global, coins: &mut Coins, manifest: &mut String) -> Result<(), Fail> {
    for name in NAMES {
        if coins.is_usual() {
            put_package(alloc, coins, name, manifest)?;
        }
    }
    Ok(())
}

/// Puts some of what stands beside these.
fn put_others(alloc: Global, coins: &mut Coins, manifest: &mut String) -> Result<(), Fail> {
    for line in OTHERS {
        if coins.is_head() {
            put(alloc, coins, line, manifest)?;
        }
    }
    Ok(())
}

/// Puts some of the packages, and some of what stands beside them.
fn put_all(alloc: Global, coins: &mut Coins, manifest: &mut String) -> Result<(), Fail> {
    put_packages(alloc, coins, manifest)?;
    put_others(alloc, coins, manifest)
}

/// The manifest of a number.
pub fn made_up(alloc: Global, seed: u32) -> Result<String, Fail> {
    let mut coins = Coins { state: seed };
    let mut manifest = String::new(alloc);
    put_all(alloc, &mut coins, &mut manifest)?;
    Ok(manifest)
}
