//! Laws of attributes, as functions that do nothing.

ghost use Rattle.std.specs.Prelude.{◌≡◌, ℕ, List, true, Some, None};
ghost use Rattle.std.specs.List.Sorted.{IsStrictlySortedBy};
ghost use Rattle.std.specs.Map.{keys_of};
ghost use Rattle.pp_value.specs.declared.value.Value.{Value};
ghost use Rattle.pp_value.specs.Values.{HasDistinctKeys, value_at, has_opaque};
ghost use Rattle.catalog_semantics.specs.Attributes.{is_metaparameter};
ghost use Rattle.model_semantics.specs.Attributes.{kind_of};
ghost use Rattle.compiled_text.specs.declared.catalog.CompiledResource.{CompiledResource};
ghost use Rattle.compiled_attributes.specs.Attributes.{byte_cmp, attributes_of, attribute_of, IsItself, IsPlain};

/// The names of a resource's attributes stand in the order of their bytes, each once.
pub fn names_in_order()
    ensures { (resources : List CompiledResource) (r : CompiledResource)
        → IsStrictlySortedBy byte_cmp (keys_of (attributes_of resources r)) }
{}

/// An attribute of a resource is one that is added, or else what becomes of the text's attribute of its name.
pub fn each_attribute()
    ensures { (resources : List CompiledResource) (r : CompiledResource) → HasDistinctKeys r.parameters
        → (name : List ℕ) → value_at name (attributes_of resources r) ≡ attribute_of resources r name }
{}

/// An attribute of a native resource of which no row tells stays as it was.
pub fn attributes_stay()
    ensures { (resources : List CompiledResource) (r : CompiledResource) → IsItself r → HasDistinctKeys r.parameters
        → (name : List ℕ) (x : Value) → IsPlain r name x → value_at name (attributes_of resources r) ≡ Some x }
{}

/// What is kept of a native resource whose type has no model is told, but in relations.
pub fn unmodelled_types()
    ensures { (resources : List CompiledResource) (r : CompiledResource) → IsItself r → kind_of r.id.kind ≡ None
        → HasDistinctKeys r.parameters → (name : List ℕ) (x : Value)
        → value_at name (attributes_of resources r) ≡ Some x → has_opaque x ≡ true → is_metaparameter name ≡ true }
{}
