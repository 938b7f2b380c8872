//! That each strict order has a first extension, without one being made. The definition is in `specs/`; the functions here do
//! nothing, and their contracts are a law that callers may use.
#![tactic(auto)]

ghost use Rattle.orders.specs.Relation.{Relation, IsStrictOrder};
ghost use Rattle.order_extensions.specs.FirstExtensions.{HasFirstExtension};

use orders::Order;

/// Each strict order has a first extension.
pub fn first_extensions()
    ensures exist { (order : Relation) → IsStrictOrder order → HasFirstExtension order }
{}

/// So this order has one.
pub fn has_first_extension(order: &Order)
    ensures { HasFirstExtension order.now }
{
    first_extensions();
    let _nodes = order.count();
}
