//! The grammar of Host (RFC 9110, section 7.2; RFC 3986, section 3.2.2).
ghost use Rattle.std.specs.Prelude.{◌≡◌};
ghost use Rattle.http_cache_intermediary.specs.Host.{is_host_byte, is_address_byte, is_name, is_address, is_port, is_ending, is_named, is_bracketed, is_host};

fn is_host_byte(byte: u8) -> bool
    ensures { result ≡ is_host_byte byte }
{
    byte.is_ascii_alphanumeric() || b"-._~!$&'()*+;=%".contains(&byte)
}

fn is_address_byte(byte: u8) -> bool
    ensures { result ≡ is_address_byte byte }
{
    byte.is_ascii_hexdigit() || byte == b':' || byte == b'.'
}

fn is_name(text: &str) -> bool
    ensures { result ≡ is_name text.now }
{
    text.as_bytes().iter().all(|byte| is_host_byte(*byte))
}

fn is_address(text: &str) -> bool
    ensures { result ≡ is_address text.now }
{
    text.as_bytes().iter().all(|byte| is_address_byte(*byte))
}

fn is_port(text: &str) -> bool
    ensures { result ≡ is_port text.now }
{
    text.as_bytes().iter().all(|byte| byte.is_ascii_digit())
}

// Returns whether a text may follow an address in brackets.
fn is_ending(text: &str) -> bool
    ensures { result ≡ is_ending text.now }
{
    match text.strip_prefix(":") {
        Some(port) => is_port(port),
        None => text.is_empty(),
    }
}

fn is_named(text: &str) -> bool
    ensures { result ≡ is_named text.now }
{
    match text.split_once(':') {
        Some((name, port)) => is_name(name) && is_port(port),
        None => is_name(text),
    }
}

fn is_bracketed(text: &str) -> bool
    ensures { result ≡ is_bracketed text.now }
{
    let (address, ending) = text.split_once(']').unwrap_or((text, ""));
    text.as_bytes().contains(&b']') && is_address(address) && is_ending(ending)
}

/// Returns whether a text is a host, with or without a port. A name has no comma, so that no two
/// fields are read as one.
pub(crate) fn is_host(text: &str) -> bool
    ensures { result ≡ is_host text.now }
{
    match text.strip_prefix("[") {
        Some(rest) => is_bracketed(rest),
        None => is_named(text),
    }
}
