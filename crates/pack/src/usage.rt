// What is told to whoever gives malformed arguments.
ghost use Rattle.std.specs.Prelude.{◌≡◌, Some};
ghost use Rattle.pack.specs.Usage.{form_text, wanted_text};

use std::fmt;

// The program's two forms, and neither.
#[derive(Clone, Copy)]
pub enum Form {
    Data,
    Key,
    Unknown,
}

// An argument by its name in the usage, or the number of arguments.
#[derive(Clone, Copy)]
pub enum Argument {
    Command,
    Count,
    Cipher,
    Key,
    Kek,
    Iv,
    Ver,
    Pn,
    Np,
    Address,
    Data,
    Kt,
    Kv,
}

impl fmt::Display for Form {
    ghost output = { λ form. Some (form_text form) };

    fn fmt<W: fmt::Write>(&self, f: &mut fmt::Formatter<W>) -> fmt::Result {
        f.write_str(match self {
            Form::Data => "pack data CIPHER KEY IV VER PN NP ADDRESS DATA",
            Form::Key => "pack key CIPHER KEK IV KT KV KEY",
            Form::Unknown =>
                "pack data CIPHER KEY IV VER PN NP ADDRESS DATA, or pack key CIPHER KEK IV KT KV KEY",
        })
    }
}

impl Argument {
    // What is wanted of the argument.
    fn wanted(&self) -> &'static str
        ensures { result.now ≡ wanted_text self.now }
    {
        match self {
            Argument::Command => "the first argument is data or key",
            Argument::Count => "there are too few arguments or too many",
            Argument::Cipher => "CIPHER is ccm or gcm",
            Argument::Key => "KEY has 32 hexadecimal digits",
            Argument::Kek => "KEK has 32 hexadecimal digits",
            Argument::Iv => "IV has 32 hexadecimal digits",
            Argument::Ver => "VER is a decimal number, 0 to 255",
            Argument::Pn => "PN is a decimal number, 0 to 65535",
            Argument::Np => "NP is a decimal number, 0 to 65535",
            Argument::Address => "ADDRESS is 0x and hexadecimal digits",
            Argument::Data => "DATA has hexadecimal digits, two to a byte",
            Argument::Kt => "KT is a decimal number, 0 to 255",
            Argument::Kv => "KV is a decimal number, 0 to 255",
        }
    }
}

impl fmt::Display for Argument {
    ghost output = { λ argument. Some (wanted_text argument) };

    fn fmt<W: fmt::Write>(&self, f: &mut fmt::Formatter<W>) -> fmt::Result {
        f.write_str(self.wanted())
    }
}
