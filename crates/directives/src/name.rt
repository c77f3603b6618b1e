// The name of a directive.
ghost use Rattle.std.specs.Prelude.{◌≡◌};
ghost use Rattle.directives.specs.Directives.{table, lookup};

use crate::{Directive, Form};

// The directive of that name.
pub fn directive_named(name: &[u8]) -> Option<Directive>
    ensures { result ≡ lookup table name.now }
{
    match name {
        b"if" => Some(Directive::If(Form::Expression)),
        b"ifdef" => Some(Directive::If(Form::Defined)),
        b"ifndef" => Some(Directive::If(Form::Undefined)),
        b"elif" => Some(Directive::Elif(Form::Expression)),
        b"elifdef" => Some(Directive::Elif(Form::Defined)),
        b"elifndef" => Some(Directive::Elif(Form::Undefined)),
        b"else" => Some(Directive::Else),
        b"endif" => Some(Directive::Endif),
        b"define" => Some(Directive::Define),
        b"undef" => Some(Directive::Undef),
        _ => None,
    }
}
