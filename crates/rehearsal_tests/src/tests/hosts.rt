//! Fourteen hosts whose catalogs Puppet compiled: what is told of each, alone and with a listing and assumptions.

use super::common::{Told, compare, compare_head, compare_status, has, run_over};
use super::workloads::tells_well;
use std::alloc::Global;
use std::test::Fail;
use test_hosts as host;

/// The files of the packages of all hosts.
const LISTING: &str = concat!(
    r#"{"version":2,"packages":{"nginx":{"files":[["/etc/nginx/nginx.conf",null],["/etc/nginx/sites-enabled/default",null],"#,
    r#"["/lib/systemd/system/nginx.service",null]],"folders":["/etc/nginx/sites-available","/etc/nginx/sites-enabled"]},"#,
    r#""rsync":{"files":[["/usr/bin/rsync",null]],"folders":[]},"#,
    r#""cron":{"files":[["/etc/crontab",null],["/usr/sbin/cron",null],["/lib/systemd/system/cron.service",null]],"folders":[]},"#,
    r#""openssh-server":{"files":[["/etc/ssh/moduli",null],["/lib/systemd/system/ssh.service",null]],"folders":[]},"#,
    r#""telegraf":{"files":[["/etc/telegraf/telegraf.conf",null],["/lib/systemd/system/telegraf.service",null]],"folders":[]},"#,
    r#""postgresql-15":{"files":[["/lib/systemd/system/postgresql.service",null]],"folders":["/etc/postgresql/15/main/conf.d"]},"#,
    r#""vim":{"files":[["/etc/vim/vimrc",null]],"folders":[]},"htop":{"files":[["/usr/bin/htop",null]],"folders":[]},"#,
    r#""curl":{"files":[["/usr/bin/curl",null]],"folders":[]},"tmux":{"files":[["/usr/bin/tmux",null]],"folders":[]},"#,
    r#""nano":{"files":[["/etc/nanorc",null],["/bin/nano",null]],"folders":[]},"telnet":{"files":[["/usr/bin/telnet",null]],"folders":[]},"#,
    r#""docker.io":{"files":[["/etc/default/docker",null],["/lib/systemd/system/docker.service",null]],"folders":[]},"#,
    r#""postfix":{"files":[["/etc/postfix/master.cf",null],["/lib/systemd/system/postfix.service",null]],"folders":[]},"#,
    r#""exim4":{"files":[["/etc/exim4/exim4.conf",null],["/lib/systemd/system/exim4.service",null]],"folders":[]},"#,
    r#""apache2":{"files":[["/lib/systemd/system/apache2.service",null]],"folders":["/etc/apache2/sites-available","/etc/apache2/sites-enabled"]}}}"#
);

const ALONE: &[&str] = &["--compiled", "host"];

const LISTED: &[&str] = &["--packages", "listing", "--compiled", "host"];

const ASSUMED: &[&str] = &[
    "--packages",
    "listing",
    "--assume",
    "assumed",
    "--compiled",
    "host",
];

fn asked<'a>(
    alloc: Global,
    words: &[&str],
    catalog: &'a str,
    assumed: &'a str,
) -> Result<Told, Fail> {
    let over: [(&str, &[u8]); 3] = [
        ("host", catalog.as_bytes()),
        ("listing", LISTING.as_bytes()),
        ("assumed", assumed.as_bytes()),
    ];
    run_over(alloc, words, &over)
}

/// A catalog, what is asked, what is assumed, and the refusal.
type Refused = (
    &'static str,
    &'static [&'static str],
    &'static str,
    &'static str,
);

/// What is told of a row is the refusal of the first resource of which nothing can be said.
fn is_refused(alloc: Global, row: &Refused) -> Result<(), Fail> {
    let told = asked(alloc, row.1, row.0, row.2)?;
    compare(alloc, &told, 4, "", row.3, row.3)
}

/// Each row: what is told is the refusal of the first resource of which nothing can be said.
fn all_refused(alloc: Global, rows: &[Refused]) -> Result<(), Fail> {
    for row in rows {
        is_refused(alloc, row)?;
    }
    Ok(())
}

#[test]
fn what_is_refused_of_packages_users_and_commands(rt: HostRuntime) -> Result<(), Fail> {
    all_refused(
        rt.alloc(),
        &[
            (
                host::NGINX_PROFILE,
                ALONE,
                "",
                "refused 54 at 0: Package[nginx] (/etc/puppet/hosts/h01-nginx-profile.pp:2)\n",
            ),
            (
                host::USERS,
                ALONE,
                "",
                "refused 51 at 0: User[mallory] managehome (/etc/puppet/hosts/h02-users.pp:10)\n",
            ),
            (
                host::BACKUP_CRON,
                ALONE,
                "",
                "refused 54 at 0: Package[rsync] (/etc/puppet/hosts/h03-backup-cron.pp:2)\n",
            ),
            (
                host::SSHD,
                ALONE,
                "",
                "refused 54 at 0: Package[openssh-server] (/etc/puppet/hosts/h04-sshd.pp:2)\n",
            ),
            (
                host::APP_TARBALL,
                LISTED,
                "",
                "refused 50 at 0: Exec[fetch app] (/etc/puppet/hosts/h05-app-tarball.pp:4)\n",
            ),
        ],
    )
}

#[test]
fn what_is_refused_of_folders_and_stages(rt: HostRuntime) -> Result<(), Fail> {
    all_refused(
        rt.alloc(),
        &[
            (
                host::CONFD,
                ALONE,
                "",
                "refused 54 at 0: Package[telegraf] (/etc/puppet/hosts/h06-confd.pp:3)\n",
            ),
            (
                host::CONFD,
                LISTED,
                "",
                "refused 51 at 0: File[/etc/telegraf/telegraf.d] purge (/etc/puppet/hosts/h06-confd.pp:4)\n",
            ),
            (
                host::STAGES,
                LISTED,
                "",
                "refused 50 at 0: Exec[apt-get update] (/etc/puppet/hosts/h07-stages.pp:3)\n",
            ),
        ],
    )
}

#[test]
fn values_that_are_refused_one_after_the_other(rt: HostRuntime) -> Result<(), Fail> {
    all_refused(
        rt.alloc(),
        &[
            (
                host::VALUES,
                LISTED,
                "",
                "refused 51 at 0: File[/a/] force (/etc/puppet/hosts/h09-values.pp:4)\n",
            ),
            (
                host::VALUES,
                ASSUMED,
                r#"{"version":1,"resources":{"File[/a]":"none"}}"#,
                "refused 51 at 0: File[named] source (/etc/puppet/hosts/h09-values.pp:5)\n",
            ),
            (
                host::VALUES,
                ASSUMED,
                r#"{"version":1,"resources":{"File":"none"}}"#,
                "refused 55 at 0: Service[s] (/etc/puppet/hosts/h09-values.pp:9)\n",
            ),
            (
                host::VALUES,
                ASSUMED,
                r#"{"version":1,"resources":{"File":"none","Service[s]":"none"}}"#,
                "refused 54 at 0: Package[p] (/etc/puppet/hosts/h09-values.pp:11)\n",
            ),
            (
                host::VALUES,
                ASSUMED,
                r#"{"version":1,"resources":{"File":"none","Service[s]":"none","Package[p]":"none"}}"#,
                "refused 55 at 0: Package[q] (/etc/puppet/hosts/h09-values.pp:12)\n",
            ),
            (
                host::VALUES,
                ASSUMED,
                r#"{"version":1,"resources":{"File":"none","Service[s]":"none","Package":"none"}}"#,
                "refused 23 at 0: Resources[cron] (/etc/puppet/hosts/h09-values.pp:16)\n",
            ),
        ],
    )
}

#[test]
fn what_is_refused_of_databases_and_mail(rt: HostRuntime) -> Result<(), Fail> {
    all_refused(
        rt.alloc(),
        &[
            (
                host::POSTGRES_MANUAL,
                LISTED,
                "",
                "refused 50 at 0: Exec[create role app] (/etc/puppet/hosts/h10-postgres-manual.pp:6)\n",
            ),
            (
                host::MOTD_HOSTS,
                LISTED,
                "",
                "refused 23 at 0: Host[db1] (/etc/puppet/hosts/h11-motd-hosts.pp:3)\n",
            ),
            (
                host::MOTD_HOSTS,
                ASSUMED,
                r#"{"version":1,"resources":{"Host":"none","Mount":"none"}}"#,
                "refused 23 at 0: Tidy[/tmp/old] (/etc/puppet/hosts/h11-motd-hosts.pp:7)\n",
            ),
            (
                host::DOCKER_HOST,
                LISTED,
                "",
                "refused 50 at 0: Exec[sysctl --system] (/etc/puppet/hosts/h12-docker-host.pp:8)\n",
            ),
            (
                host::MAIL_RELAY,
                LISTED,
                "",
                "refused 50 at 0: Exec[newaliases] (/etc/puppet/hosts/h13-mail-relay.pp:8)\n",
            ),
            (
                host::WEBROOT_EPP,
                ALONE,
                "",
                "refused 54 at 0: Package[apache2] (/etc/puppet/hosts/h14-webroot-epp.pp:2)\n",
            ),
        ],
    )
}

/// A catalog, what is asked, what is assumed, and the first lines of a yes.
type Answered = (
    &'static str,
    &'static [&'static str],
    &'static str,
    &'static str,
);

fn is_answered(alloc: Global, row: &Answered) -> Result<(), Fail> {
    let told = asked(alloc, row.1, row.0, row.2)?;
    tells_well(alloc, &told, row.3)
}

fn all_answered(alloc: Global, rows: &[Answered]) -> Result<(), Fail> {
    for row in rows {
        is_answered(alloc, row)?;
    }
    Ok(())
}

#[test]
fn what_is_answered_of_packages_and_users(rt: HostRuntime) -> Result<(), Fail> {
    all_answered(
        rt.alloc(),
        &[
            (host::NGINX_PROFILE, LISTED, "", "resources 6\npruned 6\n"),
            (
                host::USERS,
                ASSUMED,
                r#"{"version":1,"resources":{"User[mallory]":"none"}}"#,
                "resources 12\nassumed 1\npruned 12\n",
            ),
            (host::BACKUP_CRON, LISTED, "", "resources 5\npruned 5\n"),
            (host::SSHD, LISTED, "", "resources 3\npruned 3\n"),
        ],
    )
}

#[test]
fn what_is_answered_of_commands_and_folders(rt: HostRuntime) -> Result<(), Fail> {
    all_answered(
        rt.alloc(),
        &[
            (
                host::APP_TARBALL,
                ASSUMED,
                concat!(
                    r#"{"version":1,"resources":{"Exec[fetch app]":{"makes":["/opt/app/releases/app-1.4.2.tgz"],"creates":"/opt/app/releases/app-1.4.2.tgz"},"#,
                    r#""Exec[unpack app]":{"needs":["/opt/app/releases/app-1.4.2.tgz"],"folders":["/opt/app/releases/app-1.4.2"],"#,
                    r#""creates":"/opt/app/releases/app-1.4.2"},"Exec[daemon-reload]":"none"}}"#
                ),
                "resources 10\nassumed 3\npruned 10\n",
            ),
            (
                host::CONFD,
                ASSUMED,
                r#"{"version":1,"resources":{"File[/etc/telegraf/telegraf.d]":{"folders":["/etc/telegraf/telegraf.d"]}}}"#,
                "resources 6\nassumed 1\npruned 6\n",
            ),
            (
                host::STAGES,
                ASSUMED,
                r#"{"version":1,"resources":{"Exec":"none"}}"#,
                "resources 7\nassumed 1\npruned 7\n",
            ),
            (host::VIRTUAL_EXPORTED, ALONE, "", "resources 5\npruned 5\n"),
        ],
    )
}

#[test]
fn what_is_answered_of_values_and_databases(rt: HostRuntime) -> Result<(), Fail> {
    all_answered(
        rt.alloc(),
        &[
            (
                host::VALUES,
                ASSUMED,
                concat!(
                    r#"{"version":1,"resources":{"File[/a/]":{"folders":["/a"]},"File[named]":{"makes":["/b/c"],"creates":"/b/c"},"#,
                    r#""Service[s]":"none","Package":"none","Resources":"none"}}"#
                ),
                "resources 18\nassumed 7\npruned 18\n",
            ),
            (
                host::POSTGRES_MANUAL,
                ASSUMED,
                r#"{"version":1,"resources":{"Exec[create role app]":"none"}}"#,
                "resources 6\nassumed 1\npruned 6\n",
            ),
        ],
    )
}

#[test]
fn what_is_answered_where_the_host_has_files(rt: HostRuntime) -> Result<(), Fail> {
    all_answered(
        rt.alloc(),
        &[
            // The two files and vim need /etc, of which nothing else makes sure. But without /etc no run ends: the host's line needs a file there.
            (
                host::MOTD_HOSTS,
                ASSUMED,
                r#"{"version":1,"resources":{"Host":{"edits":["/etc/hosts"]},"Tidy":"none","Mount":"none"}}"#,
                "resources 13\nassumed 3\npruned 10\n",
            ),
            // So do the package and its folder, and without /etc no run ends either: the settings of the kernel need a folder there.
            (
                host::DOCKER_HOST,
                ASSUMED,
                r#"{"version":1,"resources":{"Exec":"none"}}"#,
                "resources 8\nassumed 1\npruned 6\n",
            ),
            (
                host::MAIL_RELAY,
                ASSUMED,
                r#"{"version":1,"resources":{"Exec[newaliases]":{"needs":["/etc/aliases"],"makes":["/etc/aliases.db"]}}}"#,
                "resources 7\nassumed 1\npruned 7\n",
            ),
            (host::WEBROOT_EPP, LISTED, "", "resources 8\npruned 8\n"),
        ],
    )
}

/// A catalog is told with status 1, and with these lines in front, where this is assumed.
fn differs(alloc: Global, catalog: &str, assumed: &str, head: &str) -> Result<(), Fail> {
    let told = asked(alloc, ASSUMED, catalog, assumed)?;
    compare_head(alloc, &told, 1, head, assumed)
}

/// Where the host's line does nothing, the empty tree shows that either file may come ahead of the package that brings /etc.
#[test]
fn a_file_ahead_of_its_folder(rt: HostRuntime) -> Result<(), Fail> {
    differs(
        rt.alloc(),
        host::MOTD_HOSTS,
        r#"{"version":1,"resources":{"Host":"none","Tidy":"none","Mount":"none"}}"#,
        "resources 13\nassumed 3\npruned 10\nnot deterministic\n",
    )
}

/// The graph that was told has a line.
fn tells_line(alloc: Global, told: &Told, line: &str) -> Result<(), Fail> {
    compare_status(alloc, told, 0, line)?;
    has(alloc, "graph", told.out.as_str(), line)
}

/// The graph of a catalog has a line.
fn is_before(alloc: Global, catalog: &str, line: &str) -> Result<(), Fail> {
    let told = asked(
        alloc,
        &["--ask", "graph", "--compiled", "host"],
        catalog,
        "",
    )?;
    tells_line(alloc, &told, line)
}

/// Each row: a catalog, and a line of its graph.
fn all_before(alloc: Global, rows: &[(&str, &str)]) -> Result<(), Fail> {
    for (catalog, line) in rows {
        is_before(alloc, *catalog, *line)?;
    }
    Ok(())
}

/// An alias is found, and so is what a link leads to.
#[test]
fn what_comes_before(rt: HostRuntime) -> Result<(), Fail> {
    all_before(
        rt.alloc(),
        &[
            (
                host::VIRTUAL_EXPORTED,
                "\nFile[/srv/data] -> File[/srv/data/x]\n",
            ),
            (host::VIRTUAL_EXPORTED, "\nGroup[postgres] -> User[dba]\n"),
            (
                host::NGINX_PROFILE,
                "\nFile[/etc/nginx/sites-available/app] -> File[/etc/nginx/sites-enabled/app]\n",
            ),
        ],
    )
}
