//! The fields of one message, written and read in their order.

/// Adds fields at the end of a `&mut Vec<u8>`, each as its type's `Field` spells it, in the function's
/// body: `put_fields!(out; table.0, count);`. It hands want of memory on by `?`.
#[macro_export]
macro_rules! put_fields {
    ($out:ident; $($value:expr),+ $(,)?) => {
        $($crate::Field::put($value, $out)?;)+
    };
}

/// Takes fields off the front of a slice of bytes that has enough of them, into variables:
/// `take_fields!(rest; table: u8, number: u64);`. The slice's own variable becomes the bytes after
/// them.
#[macro_export]
macro_rules! take_fields {
    ($rest:ident; $($name:ident: $field:ty),+ $(,)?) => {
        $(let ($name, $rest) = <$field as $crate::Field>::take($rest);)+
    };
}
