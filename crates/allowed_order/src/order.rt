//! The order that a text names.

ghost use Rattle.std.specs.Prelude.{◌≡◌, ◌↔◌, ◌<◌, ◌^◌, ℕ, List, [], length, codes, IsTrue, IfOk, IfErr};
ghost use Rattle.rh_base.specs.Refused.{IfRefused, IsRefusal};
ghost use Rattle.orders.specs.Relation.{Comes};
ghost use Rattle.fs_semantics.specs.Orders.{IsLinearExtension};
ghost use Rattle.allowed_order.specs.AllowedOrder.{AreToldApart, IsOrderOf, IsOnlyOrder};
ghost use Rattle.allowed_order.specs.Names.{with_names, positions_of};

use crate::naming::{names_of, positions_of};
use catalog::Catalog;
use order_text::{one_order, order_from_json};
use orders::Order;
use rh_base::{Fault, Misread, NoMemory, Seq, Text};
use std::alloc::Global;

/// The positions that texts name, or none where a text names none.
fn named_by(
    alloc: Global,
    catalog: &Catalog,
    plain: &[u32],
    texts: &[Text],
) -> Result<Option<Seq<u32>>, NoMemory>
    requires { length plain.now < 2 ^ 32 }
    ensures { IfOk result (λ found. found ≡ positions_of (with_names catalog.now 0 plain.now []) texts.now) }
{
    let names = names_of(alloc, catalog, plain)?;
    match positions_of(alloc, &names, texts) {
        Ok(positions) => Ok(Some(positions)),
        Err(Misread::Form) => Ok(None),
        Err(Misread::Memory(m)) => Err(m),
    }
}

fn is_allowed(alloc: Global, order: &Order, positions: &[u32]) -> Result<bool, NoMemory>
    ensures { IfOk result (λ b. IsTrue b ↔ IsLinearExtension order.now.count (Comes order.now) positions.now) }
{
    let mut marks = vec![in alloc; false; order.count() as usize]?;
    Ok(order.is_extension(positions, marks.as_mut_slice()))
}

/// The allowed order that texts name, or none.
fn order_named(
    alloc: Global,
    catalog: &Catalog,
    plain: &[u32],
    order: &Order,
    texts: &[Text],
) -> Result<Option<Seq<u32>>, NoMemory>
    requires { order.now.count ≡ length plain.now }
    ensures { IfOk result (IsOnlyOrder catalog.now plain.now (Comes order.now) texts.now) }
{
    let _few = order.count();
    let Some(positions) = named_by(alloc, catalog, plain, texts)? else {
        return Ok(None);
    };
    if is_allowed(alloc, order, positions.as_slice())? {
        Ok(Some(positions))
    } else {
        Ok(None)
    }
}

/// The allowed order of plain resources that a text names: a JSON array of their references, as they are shown. The
/// resources are those at these places of the catalog, the order is over their positions among these, and so is the answer.
pub fn order_of(
    alloc: Global,
    bytes: &[u8],
    catalog: &Catalog,
    plain: &[u32],
    order: &Order,
) -> Result<Seq<u32>, Fault>
    requires count { order.now.count ≡ length plain.now }
    ensures found { IfOk result (IsOrderOf catalog.now plain.now (Comes order.now) bytes.now) }
    // Where no two of the resources are shown alike, each order that the text names is the one that is found.
    ensures only { AreToldApart catalog.now plain.now → (o : List ℕ)
        → IsOrderOf catalog.now plain.now (Comes order.now) bytes.now o → IfOk result (λ found. found ≡ o) }
    ensures refused { IfErr result (λ e. IfRefused e (λ r. IsRefusal 63 0 (codes "order") r
        × (AreToldApart catalog.now plain.now → (o : List ℕ) → IsOrderOf catalog.now plain.now (Comes order.now) bytes.now o → ⊥))) }
{
    one_order();
    let texts = order_from_json(alloc, bytes)?;
    match order_named(alloc, catalog, plain, order, texts.as_slice())? {
        Some(found) => Ok(found),
        None => Err(Fault::refused(alloc, 63, 0, "order")),
    }
}
