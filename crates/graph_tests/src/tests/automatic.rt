//! Rows of automatic edges, one or more for each line of their table.
use super::drafts::are_answered;
use std::test::Fail;

#[test]
fn files_come_after_what_is_above(rt: HostRuntime) -> Result<(), Fail> {
    are_answered(
        rt.alloc(),
        &[
            (
                "plain file[/a]; plain file[/a/b]",
                "File[/a]\nFile[/a/b]\nFile[/a] -> File[/a/b]\n",
            ),
            // dropped against a relation, whatever way it was written
            (
                "plain file[/a]; plain file[/a/b]; arrow file[/a/b] file[/a]",
                "File[/a]\nFile[/a/b]\nFile[/a/b] -> File[/a]\n",
            ),
            (
                "plain file[/a]; plain file[/a/b] before=file[/a]",
                "File[/a]\nFile[/a/b]\nFile[/a/b] -> File[/a]\n",
            ),
            (
                "plain file[/a] subscribe=file[/a/b]; plain file[/a/b]",
                "File[/a]\nFile[/a/b]\nFile[/a/b] -> File[/a]\n",
            ),
            // the nearest above, also over a gap; the further one is told only where it comes before the nearest
            (
                "plain file[/a]; plain file[/a/b/c]; plain file[/a/b]; arrow file[/a/b] file[/a]",
                "File[/a]\nFile[/a/b/c]\nFile[/a/b]\nFile[/a/b] -> File[/a]\nFile[/a/b] -> File[/a/b/c]\n",
            ),
            (
                "plain file[/a]; plain file[/a/b/c]; plain file[/ab]",
                "File[/a]\nFile[/a/b/c]\nFile[/ab]\nFile[/a] -> File[/a/b/c]\n",
            ),
            // by the attribute `path`, of all that have the nearest
            (
                "plain file[x] path=/a/; plain file[y] path=//a; plain file[z] path=/a/b; plain file[/]",
                "File[x]\nFile[y]\nFile[z]\nFile[/]\nFile[x] -> File[z]\nFile[y] -> File[z]\nFile[/] -> File[x]\nFile[/] -> File[y]\nFile[/] -> File[z]\n",
            ),
            // a path that is refused, and one of another kind, give no edge
            (
                "plain file[/a]; plain file[/a/../b]; plain file[/a/c] path=#7; plain file[/.rehearsal]; plain file[/.rehearsal/x]",
                "File[/a]\nFile[/a/../b]\nFile[/a/c]\nFile[/.rehearsal]\nFile[/.rehearsal/x]\n",
            ),
            // a virtual file isn't there
            (
                "virtual file[/a/b]; plain file[/a]; plain file[/a/b/c]",
                "File[/a]\nFile[/a/b/c]\nFile[/a] -> File[/a/b/c]\n",
            ),
            // only files are above files
            (
                "plain package[/a]; plain file[/a/b]",
                "Package[/a]\nFile[/a/b]\n",
            ),
        ],
    )
}

#[test]
fn resources_come_after_whom_they_name(rt: HostRuntime) -> Result<(), Fail> {
    are_answered(
        rt.alloc(),
        &[
            (
                "plain file[/f] owner=u group=g; plain user[u]; plain group[g]; plain user[g]",
                "File[/f]\nUser[u]\nGroup[g]\nUser[g]\nUser[u] -> File[/f]\nGroup[g] -> File[/f]\n",
            ),
            (
                "plain user[u] gid=g; plain group[g]; plain group[h]",
                "User[u]\nGroup[g]\nGroup[h]\nGroup[g] -> User[u]\n",
            ),
            (
                "plain user[u] groups=g,h; plain group[g]; plain group[h]",
                "User[u]\nGroup[g]\nGroup[h]\nGroup[g] -> User[u]\nGroup[h] -> User[u]\n",
            ),
            (
                "plain user[u] groups=g; plain group[g]",
                "User[u]\nGroup[g]\nGroup[g] -> User[u]\n",
            ),
            (
                "plain cron[c] user=u; plain user[u]; plain user[root]",
                "Cron[c]\nUser[u]\nUser[root]\nUser[u] -> Cron[c]\n",
            ),
            // a cron job without a user is root's
            (
                "plain cron[c]; plain user[root]",
                "Cron[c]\nUser[root]\nUser[root] -> Cron[c]\n",
            ),
            (
                "plain ssh_authorized_key[k] user=u; plain user[u]",
                "Ssh_authorized_key[k]\nUser[u]\nUser[u] -> Ssh_authorized_key[k]\n",
            ),
            // a key without one is nobody's
            (
                "plain ssh_authorized_key[k]; plain user[root]",
                "Ssh_authorized_key[k]\nUser[root]\n",
            ),
            // a name is what is modelled; of several each
            (
                "plain file[/f] owner=u; plain user[a] name=u; plain user[b] name=u; plain user[u] name=v",
                "File[/f]\nUser[a]\nUser[b]\nUser[u]\nUser[a] -> File[/f]\nUser[b] -> File[/f]\n",
            ),
            // numbers and texts of digits name nobody
            (
                "plain file[/f] owner=0 group=#7; plain user[0]; plain group[7]",
                "File[/f]\nUser[0]\nGroup[7]\n",
            ),
            // a list with a number is of another kind; the other names count
            (
                "plain user[u] gid=h groups=g,#7; plain group[g]; plain group[h]",
                "User[u]\nGroup[g]\nGroup[h]\nGroup[h] -> User[u]\n",
            ),
            // a file whose path is refused has its owner all the same
            (
                "plain file[f] owner=u; plain user[u]",
                "File[f]\nUser[u]\nUser[u] -> File[f]\n",
            ),
            // dropped against a relation
            (
                "plain file[/f] owner=u before=user[u]; plain user[u]",
                "File[/f]\nUser[u]\nFile[/f] -> User[u]\n",
            ),
            // other types name nobody
            (
                "plain service[s] user=u owner=u; plain user[u]; defined file_of[x] owner=u",
                "Service[s]\nUser[u]\n",
            ),
        ],
    )
}
