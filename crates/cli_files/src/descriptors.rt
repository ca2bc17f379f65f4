//! The paths of descriptors.

ghost use Rattle.std.specs.Prelude.{◌≡◌, ◌≤◌, ◌↔◌, All, true};
ghost use Rattle.cli_files.specs.Publishing.{IsDescriptor, IsNumber, IsProcess};

/// Whether all bytes of a text are decimal digits.
fn are_digits(text: &[u8]) -> bool
    ensures { (result ≡ true) ↔ All (λ digit. 48 ≤ digit × digit ≤ 57) text.now }
{
    text.iter().all(u8::is_ascii_digit)
}

/// Whether a text is a number in decimal digits.
fn is_number(text: &str) -> bool
    ensures { (result ≡ true) ↔ IsNumber text.now }
{
    !text.is_empty() && are_digits(text.as_bytes())
}

/// Whether a text is the name of a process under /proc.
fn is_process(name: &str) -> bool
    ensures { (result ≡ true) ↔ IsProcess name.now }
{
    name == "self" || name == "thread-self" || is_number(name)
}

/// Whether a path is that of a descriptor of a process.
pub fn is_descriptor(path: &str) -> bool
    ensures { (result ≡ true) ↔ IsDescriptor path.now }
{
    if path == "/dev/stdout" || path == "/dev/stderr" {
        return true;
    }
    if let Some(number) = path.strip_prefix("/dev/fd/") {
        return is_number(number);
    }
    let Some(rest) = path.strip_prefix("/proc/") else {
        return false;
    };
    match rest.split_once("/fd/") {
        Some((process, number)) => is_process(process) && is_number(number),
        None => false,
    }
}
