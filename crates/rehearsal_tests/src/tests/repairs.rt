//! The arrows that manifests lack, and what becomes of the manifests with them.

use super::common::{compare, holds};
use super::made_up;
use super::made_up::made_up;
use super::mending::{REPAIR, asked, is_mended, is_repaired};
use std::alloc::Global;
use std::test::Fail;
use test_rows::{number_text, same_number};

/// Each package brings the unit of the service of its name; `it's\p` that of ntp too, and `pair` and `twin` one file with two contents.
const LISTING: &str = concat!(
    r#"{"version":2,"packages":{"ntp":{"files":[["/etc/ntp.conf",null],["/lib/systemd/system/ntp.service","u1"]],"folders":[]},"#,
    r#""ssh":{"files":[["/lib/systemd/system/ssh.service","u2"]],"folders":[]},"#,
    r#""it's\\p":{"files":[["/lib/systemd/system/cron.service","u3"]],"folders":[]},"#,
    r#""pair":{"files":[["/opt/x","d1"]],"folders":[]},"twin":{"files":[["/opt/x","d2"]],"folders":[]}}}"#
);

/// A manifest, and what is told of its repair.
type Row = (&'static str, &'static str);

const ROWS: [Row; 9] = [
    ("", "resources 0\nedges 0\ndeterministic\n"),
    (
        "package { 'ntp': } service { 'ntp': ensure => running }",
        "resources 2\nedges 1\nPackage['ntp'] -> Service['ntp']\ndeterministic\n",
    ),
    (
        "package { 'ntp': } -> service { 'ntp': ensure => running }",
        "resources 2\nedges 0\ndeterministic\n",
    ),
    // A title with a quote and a backslash.
    (
        "package { 'it\\'s\\\\p': } service { 'cron': ensure => running }",
        "resources 2\nedges 1\nPackage['it\\'s\\\\p'] -> Service['cron']\ndeterministic\n",
    ),
    // In classes and defined types.
    (
        "class one { package { 'ntp': } } define two() { service { $title: ensure => running } } include one two { 'ntp': }",
        "resources 2\nedges 1\nPackage['ntp'] -> Service['ntp']\ndeterministic\n",
    ),
    // No run can end: the parent of the second file is the first one.
    (
        "file { '/a': content => 'x' } file { '/a/b': content => 'y' } package { 'ntp': } service { 'ntp': ensure => running }",
        "resources 4\nedges 0\ndeterministic\n",
    ),
    // An arrow that is there already on the way of another.
    (
        "package { 'ntp': } package { 'ssh': } -> service { 'ssh': ensure => running } -> service { 'ntp': ensure => running }",
        "resources 4\nedges 1\nPackage['ntp'] -> Service['ntp']\ndeterministic\n",
    ),
    // Files apart.
    (
        "file { '/p': content => 'x' } file { '/q': content => 'y' }",
        "resources 2\nedges 0\ndeterministic\n",
    ),
    (
        "file { ['/r', '/s', '/t']: ensure => directory }",
        "resources 3\nedges 0\ndeterministic\n",
    ),
];

/// A manifest, its listing, and how many arrows it lacks.
type Lacking = (&'static str, &'static str, u64);

/// Manifests that lack arrows, of which there is more than one choice or order, and how many are told.
const OPEN: [Lacking; 5] = [
    (
        "package { 'ntp': } file { '/etc/ntp.conf': content => 'server a' }",
        LISTING,
        1,
    ),
    ("package { ['pair', 'twin']: }", LISTING, 1),
    (
        "package { ['ntp', 'ssh']: } service { ['ntp', 'ssh']: ensure => running }",
        LISTING,
        2,
    ),
    (
        "package { 'ntp': } file { '/etc/ntp.conf': content => 'server a' } service { 'ntp': ensure => running }",
        LISTING,
        2,
    ),
    (
        "file { '/a': content => 'x' } file { '/b': source => '/a' } file { '/c': source => '/b' }",
        LISTING,
        2,
    ),
];

/// What stands in `examples/`, with its listing.
const NTP: &str =
    r#"{"version":2,"packages":{"ntp":{"files":[["/etc/ntp.conf",null],["/lib/systemd/system/ntp.service","md5:0cc175b9c0f1b6a831c399e269772661"]],"folders":["/var/lib/ntp"]}}}"#;

const COLOURS: &str =
    r#"{"version":2,"packages":{"red":{"files":[["/usr/share/common/licence","3f2a"]],"folders":[]},"blue":{"files":[["/usr/share/common/licence","91c0"]],"folders":[]}}}"#;

const EXAMPLES: [Lacking; 9] = [
    (
        "class ntp($servers = ['a', 'b']) { $unit = $facts['os']['family'] ? { 'Debian' => 'ntp', default => 'ntpd' } package { 'ntp': ensure => installed } file { '/etc/ntp.conf': ensure => file, owner => 'root', mode => '0644', content => \"servers ${servers}\\n\", require => Package['ntp'] } service { $unit: ensure => running, enable => true, subscribe => File['/etc/ntp.conf'] } } include ntp",
        NTP,
        0,
    ),
    (
        "file { '/etc/motd': content => 'hi' } file { '/etc/hosts.allow': content => 'sshd: 10.0.0.0/8' }",
        NTP,
        0,
    ),
    (
        "package { 'ntp': ensure => installed } file { '/etc/ntp.conf': content => \"server a\\n\" }",
        NTP,
        1,
    ),
    (
        "package { 'ntp': ensure => installed } service { 'ntp': ensure => running }",
        NTP,
        1,
    ),
    (
        "group { 'web': ensure => present } user { 'deploy': ensure => present, gid => 'web' }",
        NTP,
        0,
    ),
    (
        "file { '/etc/app/app.conf': content => \"port = 80\\n\" }",
        NTP,
        0,
    ),
    (
        "package { ['red', 'blue']: ensure => installed }",
        COLOURS,
        1,
    ),
    (
        "file { '/srv/app/settings': source => '/tmp/settings' } -> file { '/tmp/settings': ensure => absent }",
        NTP,
        0,
    ),
    (
        "cron { 'rotate': command => '/usr/sbin/logrotate /etc/logrotate.conf', user => 'backup', minute => '0' }",
        NTP,
        0,
    ),
];

/// This is told of the repair of a manifest, and mends it.
fn is_told(alloc: Global, manifest: &str, report: &str) -> Result<(), Fail> {
    is_repaired(alloc, (manifest, LISTING), report)?;
    is_mended(alloc, (manifest, LISTING))?;
    Ok(())
}

fn all_repaired(alloc: Global, rows: &[Row]) -> Result<(), Fail> {
    for (manifest, report) in rows {
        is_told(alloc, *manifest, *report)?;
    }
    Ok(())
}

#[test]
fn arrows_that_are_missing(rt: HostRuntime) -> Result<(), Fail> {
    all_repaired(rt.alloc(), &ROWS)
}

/// A manifest lacks as many arrows as its row tells.
fn lacks(alloc: Global, row: &Lacking) -> Result<(), Fail> {
    let (manifest, listing, count) = *row;
    same_number(
        alloc,
        manifest,
        is_mended(alloc, (manifest, listing))?,
        count,
    )
}

fn all_mended(alloc: Global, rows: &[Lacking]) -> Result<(), Fail> {
    for row in rows {
        lacks(alloc, row)?;
    }
    Ok(())
}

#[test]
fn arrows_of_more_than_one_choice(rt: HostRuntime) -> Result<(), Fail> {
    all_mended(rt.alloc(), &OPEN)
}

#[test]
fn arrows_of_examples(rt: HostRuntime) -> Result<(), Fail> {
    all_mended(rt.alloc(), &EXAMPLES)
}

/// How many arrows the manifest of a number lacks.
fn lacking(alloc: Global, seed: u32) -> Result<u64, Fail> {
    let manifest = made_up(alloc, seed)?;
    is_mended(alloc, (manifest.as_str(), made_up::LISTING))
}

/// How many arrows the manifests of these numbers lack together.
fn all_lacking(alloc: Global, seeds: &[u32]) -> Result<u64, Fail> {
    let mut all = 0u64;
    for seed in seeds {
        let count = lacking(alloc, *seed)?;
        all = all.saturating_add(count);
    }
    Ok(all)
}

/// The manifests of these numbers lack more arrows than this together.
fn lack_more(alloc: Global, seeds: &[u32], least: u64) -> Result<(), Fail> {
    let all = all_lacking(alloc, seeds)?;
    let count = number_text(alloc, all)?;
    holds(alloc, &[count.as_str()], all > least)
}

#[test]
fn arrows_of_made_up_manifests(rt: HostRuntime) -> Result<(), Fail> {
    // Numbers whose manifests are answered quickly. Most of them lack some.
    lack_more(rt.alloc(), &[8, 9, 15, 17, 26, 31], 6)
}

/// Words, a manifest, the status, and what stands on out and err.
type Answered = (
    &'static [&'static str],
    &'static str,
    u8,
    &'static str,
    &'static str,
);

fn is_answered(alloc: Global, row: &Answered) -> Result<(), Fail> {
    let told = asked(alloc, row.0, (row.1, LISTING))?;
    compare(alloc, &told, row.2, row.3, row.4, row.1)
}

fn all_answered(alloc: Global, rows: &[Answered]) -> Result<(), Fail> {
    for row in rows {
        is_answered(alloc, row)?;
    }
    Ok(())
}

#[test]
fn repairs_that_are_not_made(rt: HostRuntime) -> Result<(), Fail> {
    all_answered(
        rt.alloc(),
        &[
            (
                &[
                    "--ask",
                    "repair",
                    "--packages",
                    "listing",
                    "--conflicts",
                    "1",
                    "site.pp",
                ],
                "package { ['pair', 'twin']: }",
                3,
                "resources 2\nspent deterministic 1\n",
                "",
            ),
            (
                &REPAIR,
                "package { 'none': }",
                4,
                "",
                "refused 54 at 10: Package[none]\n",
            ),
            (
                &REPAIR,
                "exec { 'x': }",
                4,
                "",
                "refused 50 at 7: Exec[x]\n",
            ),
        ],
    )
}
