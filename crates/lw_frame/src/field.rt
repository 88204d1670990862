// One line of a header part.
ghost use Rattle.std.specs.Prelude.{◌≡◌, ◌≤◌, length, take_while, reverse, position, codes};
ghost use Rattle.std.specs.Str.{str_eq_ignore_ascii_case};
ghost use Rattle.lw_frame.specs.Header.{is_colon, is_blank, without_blanks_before, without_blanks_after, number};
ghost use Rattle.lw_frame.specs.Field.{field_of, decimal_of};

/// What a line is.
#[derive(Clone, Copy)]
pub(crate) enum Field {
    /// No field, or a `Content-Length` that is no length.
    Bad,
    /// A `Content-Length`.
    Length(u64),
    /// Another field.
    Other,
}

fn is_space_or_tab(byte: u8) -> bool
    ensures { result ≡ is_blank byte }
{
    byte == b' ' || byte == b'\t'
}

fn blanks_before(text: &[u8]) -> usize
    ensures { result ≡ length (take_while is_blank text.now) }
{
    text.iter()
        .take_while(|byte| is_space_or_tab(**byte))
        .count()
}

fn blanks_after(text: &[u8]) -> usize
    ensures { result ≡ length (take_while is_blank (reverse text.now)) }
{
    text.iter()
        .rev()
        .take_while(|byte| is_space_or_tab(**byte))
        .count()
}

fn trim_start(text: &[u8]) -> &[u8]
    ensures { result.now ≡ without_blanks_before text.now }
{
    &text[blanks_before(text)..]
}

fn trim_end(text: &[u8]) -> &[u8]
    ensures { result.now ≡ without_blanks_after text.now }
{
    &text[..text.len() - blanks_after(text)]
}

/// The number that digits write, of which there are few enough to fit.
fn decimal(digits: &[u8]) -> Option<u64>
    requires { length digits.now ≤ 10 }
    ensures { result ≡ decimal_of digits.now }
{
    let mut value: u64 = 0;
    'digits: for digit in digits {
        if !digit.is_ascii_digit() {
            return None;
        }
        value = value * 10 + (*digit - b'0') as u64;
    }
    Some(value)
}

fn number_in(text: &[u8]) -> Option<u64>
    ensures { result ≡ number text.now }
{
    if text.is_empty() || text.len() > 10 {
        return None;
    }
    decimal(text)
}

fn colon_in(line: &[u8]) -> Option<usize>
    ensures { result ≡ position is_colon line.now }
{
    line.iter().position(|byte| *byte == b':')
}

fn is_length_name(name: &[u8]) -> bool
    ensures { result ≡ str_eq_ignore_ascii_case name.now (codes "content-length") }
{
    name.eq_ignore_ascii_case(b"content-length")
}

pub(crate) fn field_in(line: &[u8]) -> Field
    ensures { result ≡ field_of line.now }
{
    let Some(colon) = colon_in(line) else {
        return Field::Bad;
    };
    if colon == 0 {
        return Field::Bad;
    }
    if !is_length_name(&line[..colon]) {
        return Field::Other;
    }
    match number_in(trim_end(trim_start(&line[colon + 1..]))) {
        Some(length) => Field::Length(length),
        None => Field::Bad,
    }
}
