//! The names that a configuration file may have.

ghost use Rattle.std.specs.Prelude.{◌≡◌};
ghost use Rattle.config_file.specs.Lines as spec;

/// The options of `serve`, by their names without the dashes.
#[derive(Drop)]
pub struct OptionNames<'a> {
    /// Those without a value.
    pub flags: Vec<&'a str>,
    /// Those with one.
    pub valued: Vec<&'a str>,
    /// Those with one, which may be given more than once.
    pub repeated: Vec<&'a str>,
}

/// Whether an option of this name has no place in a file: that which names the file, and that which prints one.
pub fn is_of_line(name: &str) -> bool
    ensures { result ≡ spec.is_of_line name.now }
{
    name == "config" || name == "print-config"
}

/// Whether an option of this name is written as rows of `[origins]`.
pub fn is_origin(name: &str) -> bool
    ensures { result ≡ spec.is_origin name.now }
{
    name == "origin"
}

/// Whether a name is among these.
pub(crate) fn is_among(names: &[&str], name: &str) -> bool
    ensures { result ≡ spec.is_among names.now name.now }
{
    names.iter().any(|known| *known == name)
}
