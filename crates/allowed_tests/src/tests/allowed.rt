//! Which order of the resources of a catalog a text names.

ghost use Rattle.std.specs.Prelude.{◌≡◌, IfOk};

use allowed_order::order_of;
use catalog::Catalog;
use catalog_semantics::{Resource, Sort};
use host_limits::Limits;
use orders::Order;
use pp_value::{Pairs, Ref};
use std::alloc::Global;
use std::test::Fail;
use test_rows::{refused, same, text};

/// Orders of three files behind a class, of which the first comes before the third.
const ORDERS: &[(&str, &str)] = &[
    (r#"["File[/a]","File[/b]","File[/c]"]"#, "0 1 2 "),
    (r#"["File[/b]","File[/a]","File[/c]"]"#, "1 0 2 "),
    (r#"["File[/a]","File[/c]","File[/b]"]"#, "0 2 1 "),
    // the third before the first
    (r#"["File[/c]","File[/a]","File[/b]"]"#, "63 at 0: order"),
    (r#"["File[/b]","File[/c]","File[/a]"]"#, "63 at 0: order"),
    // one is missing, one stands twice, one is more
    (r#"["File[/a]","File[/b]"]"#, "63 at 0: order"),
    (r#"["File[/a]","File[/b]","File[/b]"]"#, "63 at 0: order"),
    (
        r#"["File[/a]","File[/b]","File[/c]","File[/c]"]"#,
        "63 at 0: order",
    ),
    // none of these names a file
    (r#"["File[/a]","File[/b]","file[/c]"]"#, "63 at 0: order"),
    (
        r#"["File[/a]","File[/b]","File[/c]","Class[main]"]"#,
        "63 at 0: order",
    ),
    (r#"["File['/a']","File[/b]","File[/c]"]"#, "63 at 0: order"),
    (r#"["Class[main]","File[/a]","File[/b]"]"#, "63 at 0: order"),
    (r#"["File[/a]","File[/b]","File[/x]"]"#, "63 at 0: order"),
    (r#"{"File[/a]":1}"#, "63 at 0: order"),
    ("[]", "63 at 0: order"),
    ("[", "63 at 0: order"),
];

fn reference(alloc: Global, kind: &str, title: &str) -> Result<Ref, Fail> {
    let kind = text(alloc, kind)?;
    let title = text(alloc, title)?;
    Ok(Ref { kind, title })
}

fn push(
    alloc: Global,
    catalog: &mut Catalog,
    sort: Sort,
    kind: &str,
    title: &str,
) -> Result<(), Fail> {
    let id = reference(alloc, kind, title)?;
    let resource = Resource {
        id,
        sort,
        is_virtual: false,
        at: 0,
        holder: None,
        attrs: Pairs::new(alloc),
    };
    catalog.add(resource, Limits::Usual)?;
    Ok(())
}

fn push_files(alloc: Global, catalog: &mut Catalog, titles: &[&str]) -> Result<(), Fail> {
    for title in titles {
        push(alloc, catalog, Sort::Plain, "file", title)?;
    }
    Ok(())
}

fn fill(alloc: Global, catalog: &mut Catalog) -> Result<(), Fail> {
    push(alloc, catalog, Sort::Class, "class", "main")?;
    push_files(alloc, catalog, &["/a", "/b", "/c"])
}

/// A class and three files.
fn catalog(alloc: Global) -> Result<Catalog, Fail> {
    let mut catalog = Catalog::new(alloc);
    fill(alloc, &mut catalog)?;
    Ok(catalog)
}

fn order(alloc: Global) -> Result<Order, Fail>
    ensures { IfOk result (λ o. o.count ≡ 3) }
{
    Ok(Order::from_edges(alloc, 3, &[(0, 2)])?)
}

fn numbers(alloc: Global, positions: &[u32]) -> Result<String, Fail> {
    let mut shown = String::new(alloc);
    for i in positions {
        let number = format!(in alloc; "{i} ")?;
        shown.push_str(number.as_str())?;
    }
    Ok(shown)
}

/// The positions in a catalog that a text names, each with a blank behind it; or the refusal.
fn ordered_in(alloc: Global, text: &str, catalog: &Catalog, order: &Order) -> Result<String, Fail>
    requires { order.now.count ≡ 3 }
{
    match order_of(alloc, text.as_bytes(), catalog, &[1, 2, 3], order) {
        Ok(positions) => numbers(alloc, positions.as_slice()),
        Err(fault) => Ok(refused(alloc, &fault)?),
    }
}

fn ordered_by(alloc: Global, text: &str, order: &Order) -> Result<String, Fail>
    requires { order.now.count ≡ 3 }
{
    let catalog = catalog(alloc)?;
    ordered_in(alloc, text, &catalog, order)
}

fn ordered(alloc: Global, text: &str) -> Result<String, Fail> {
    let order = order(alloc)?;
    ordered_by(alloc, text, &order)
}

fn is_ordered(alloc: Global, text: &str, want: &str) -> Result<(), Fail> {
    let found = ordered(alloc, text)?;
    same(alloc, text, found.as_str(), want)
}

/// The text of each row names the order beside it, or is refused.
fn are_ordered(alloc: Global, rows: &[(&str, &str)]) -> Result<(), Fail> {
    for (text, want) in rows {
        is_ordered(alloc, *text, *want)?;
    }
    Ok(())
}

#[test]
fn orders_that_are_allowed(rt: HostRuntime) -> Result<(), Fail> {
    are_ordered(rt.alloc(), ORDERS)
}
