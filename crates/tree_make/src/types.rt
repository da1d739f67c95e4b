//! Types, and the items of parameter lists, structs and interfaces (the Go specification, "Types").

ghost use Rattle.std.specs.Prelude.{◌≡◌, map};
ghost use Rattle.tree.specs.Syntax.{expression_node, array_type, ellipsis_array_type, slice_type, map_type, channel_type, function_type, struct_type, interface_type, Parameters, named_and, unnamed_and, name_alone_and, Fields, fields_and, embedded_and, element_and, method_and};
ghost use Rattle.tree.specs.View.{identifier_syntax, type_name_syntax, signature_syntax, expression_syntax, fields_syntax, parameter_and, field_and};

use tree::{ChanDirection, Expr, ExprKind, Field, Identifier, Param, Signature, Span, TypeName};

/// `[length]element`.
pub fn array_type(length: Box<Expr>, element: Box<Expr>, span: Span) -> Expr
    ensures { expression_syntax result ≡ expression_node (array_type (expression_syntax length.value)
        (expression_syntax element.value)) span }
{
    let kind = ExprKind::ArrayType(length, element);
    Expr { kind, span }
}

/// `[...]element`.
pub fn ellipsis_array_type(element: Box<Expr>, span: Span) -> Expr
    ensures { expression_syntax result ≡ expression_node (ellipsis_array_type (expression_syntax element.value)) span }
{
    let kind = ExprKind::EllipsisArrayType(element);
    Expr { kind, span }
}

/// `[]element`.
pub fn slice_type(element: Box<Expr>, span: Span) -> Expr
    ensures { expression_syntax result ≡ expression_node (slice_type (expression_syntax element.value)) span }
{
    let kind = ExprKind::SliceType(element);
    Expr { kind, span }
}

/// `map[key]element`.
pub fn map_type(key: Box<Expr>, element: Box<Expr>, span: Span) -> Expr
    ensures { expression_syntax result ≡ expression_node (map_type (expression_syntax key.value) (expression_syntax
        element.value)) span }
{
    let kind = ExprKind::MapType(key, element);
    Expr { kind, span }
}

/// `chan element`, `chan<- element`, `<-chan element`.
pub fn channel_type(direction: ChanDirection, element: Box<Expr>, span: Span) -> Expr
    ensures { expression_syntax result ≡ expression_node (channel_type direction (expression_syntax element.value))
        span }
{
    let kind = ExprKind::ChanType(direction, element);
    Expr { kind, span }
}

/// `func(..) ..`.
pub fn function_type(signature: Box<Signature>, span: Span) -> Expr
    ensures { expression_syntax result ≡ expression_node (function_type (signature_syntax signature.value)) span }
{
    let kind = ExprKind::FuncType(signature);
    Expr { kind, span }
}

/// `struct{ fields }`.
pub fn struct_type(fields: Vec<Field>, span: Span) -> Expr
    ensures { expression_syntax result ≡ expression_node (struct_type (fields_syntax fields.items)) span }
{
    let kind = ExprKind::StructType(fields);
    Expr { kind, span }
}

/// `interface{ fields }`.
pub fn interface_type(fields: Vec<Field>, span: Span) -> Expr
    ensures { expression_syntax result ≡ expression_node (interface_type (fields_syntax fields.items)) span }
{
    let kind = ExprKind::InterfaceType(fields);
    Expr { kind, span }
}

/// `name Type` in a list of parameters, or `name ...Type`; whether `...` stands there.
pub fn named_parameter(name: Identifier, has_ellipsis: bool, kind: Expr) -> Param
    ensures { (after : Parameters) → parameter_and result after
        ≡ named_and (identifier_syntax name) has_ellipsis (expression_syntax kind) after }
{
    Param::Named(name, has_ellipsis, kind)
}

/// `Type` in a list of parameters, or `...Type`; whether `...` stands there.
pub fn unnamed_parameter(has_ellipsis: bool, kind: Expr) -> Param
    ensures { (after : Parameters) → parameter_and result after
        ≡ unnamed_and has_ellipsis (expression_syntax kind) after }
{
    Param::Unnamed(has_ellipsis, kind)
}

/// A name in a list of parameters that takes the type of the next item.
pub fn name_alone(name: Identifier) -> Param
    ensures { (after : Parameters) → parameter_and result after ≡ name_alone_and (identifier_syntax name) after }
{
    Param::NameAlone(name)
}

/// `names Type` in a struct, and its tag, if any.
pub fn named_fields(names: Vec<Identifier>, kind: Expr, tag: Option<Span>, span: Span) -> Field
    ensures { (after : Fields) → field_and result after
        ≡ fields_and (map identifier_syntax names.items) (expression_syntax kind) tag span after }
{
    Field::Named(names, kind, tag, span)
}

/// `Type` or `*Type` in a struct or an interface, whether `*` stands there, and its tag, if any.
pub fn embedded(has_star: bool, name: TypeName, tag: Option<Span>, span: Span) -> Field
    ensures { (after : Fields) → field_and result after
        ≡ embedded_and has_star (type_name_syntax name) tag span after }
{
    Field::Embedded(has_star, name, tag, span)
}

/// An instance that a struct embeds, whether `*` stands before it, and its tag, if any; or in an interface a constraint
/// that is more than a name.
pub fn element(has_star: bool, kind: Expr, tag: Option<Span>, span: Span) -> Field
    ensures { (after : Fields) → field_and result after
        ≡ element_and has_star (expression_syntax kind) tag span after }
{
    Field::Element(has_star, kind, tag, span)
}

/// `name(..) ..` in an interface.
pub fn method(name: Identifier, signature: Signature, span: Span) -> Field
    ensures { (after : Fields) → field_and result after
        ≡ method_and (identifier_syntax name) (signature_syntax signature) span after }
{
    Field::Method(name, signature, span)
}
