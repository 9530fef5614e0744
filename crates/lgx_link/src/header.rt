// Reads the first line of a link script.
ghost use Rattle.std.specs.Prelude.{◌≡◌, ◌<◌, [], ◌∷◌, codes, length, option_map, Ok, Err, IfOk, IfErr, IfSome};
ghost use Rattle.spec_tables.specs.Connections.{conn_named};
ghost use Rattle.spec_text.specs.TextLines.{words};
ghost use Rattle.spec_text.specs.ActionText.{name_of};
ghost use Rattle.spec_link.specs.LinkText.{connection, are_joined, bare, header_of, read_header};

use lgx_edit::Plant;
use lgx_journal::next_word;
use lgx_num::Name;
use spec_base::limits::MAX_LINE_BYTES;
use spec_link::LinkCode;
use spec_tables::ConnDef;

/// The number of a connection by its name.
fn find(conns: &[ConnDef], name: &Name) -> Option<usize>
    ensures place { result ≡ conn_named conns.now name.now }
    ensures within { IfSome result (λ n. n < length conns.now) }
{
    for (n, conn) in conns.iter().enumerate() {
        if conn.name.same(name) {
            return Some(n);
        }
    }
    None
}

/// How many words a project's connection of this name has, if it is an output as `output` says, or else an input.
pub fn connection_words(project: &Plant, output: bool, name: &Name) -> Option<u32>
    ensures { result ≡ option_map (λ c. c.words) (connection project.now output name.now) }
{
    let conns = project.parts().conns.as_slice();
    let conn = &conns[find(conns, name)?];
    if conn.output == output {
        Some(conn.words)
    } else {
        None
    }
}

/// Whether one name is that of an output connection of the first project, and the other that of an input connection of the
/// second with as many words.
#[tactic(auto, using(crate::proofs::Headers::words_alike, crate::proofs::Headers::apart_left, crate::proofs::Headers::apart_right))]
fn are_joined(a: &Plant, b: &Plant, output: &Name, input: &Name) -> bool
    ensures { result ≡ are_joined a.now b.now output.now input.now }
{
    let produced = connection_words(a, true, output);
    let consumed = connection_words(b, false, input);
    match (produced, consumed) {
        (Some(produced), Some(consumed)) => produced == consumed,
        _ => false,
    }
}

/// The name that a word is.
fn name_of(word: &[u8]) -> Option<Name>
    ensures { result ≡ name_of word.now }
{
    Name::read(word)
}

/// The names of the output and the input, if two words are names.
#[tactic(auto, using(crate::proofs::Headers::no_output, crate::proofs::Headers::no_input))]
fn names_of(output: &[u8], input: &[u8]) -> Option<(Name, Name)>
    ensures { option_map (λ h. bare h.0 h.1) result ≡ header_of (codes "link" ∷ output.now ∷ input.now ∷ []) }
{
    let Some(output) = name_of(output) else {
        return None;
    };
    let Some(input) = name_of(input) else {
        return None;
    };
    Some((output, input))
}

/// The names of the output and the input, if the words are `link` and two names.
fn names_after(verb: &[u8], output: &[u8], input: &[u8]) -> Option<(Name, Name)>
    ensures { option_map (λ h. bare h.0 h.1) result ≡ header_of (verb.now ∷ output.now ∷ input.now ∷ []) }
{
    if verb == b"link".as_slice() {
        return names_of(output, input);
    }
    None
}

/// The names of the two connections in a first line.
fn header_of(line: &[u8]) -> Option<(Name, Name)>
    ensures { option_map (λ h. bare h.0 h.1) result ≡ header_of (words line.now) }
{
    let Some((verb, after)) = next_word(line) else {
        return None;
    };
    let Some((output, after)) = next_word(after) else {
        return None;
    };
    let Some((input, after)) = next_word(after) else {
        return None;
    };
    if next_word(after).is_some() {
        return None;
    }
    names_after(verb, output, input)
}

/// The names of the two connections that a first line joins, or its first cause.
#[tactic(auto, using(crate::proofs::Headers::header_joined, crate::proofs::Headers::header_apart))]
pub(crate) fn read_header(a: &Plant, b: &Plant, line: &[u8]) -> Result<(Name, Name), LinkCode>
    ensures names { IfOk result (λ h. read_header a.now b.now line.now ≡ Ok (bare h.0 h.1)) }
    ensures code { IfErr result (λ code. read_header a.now b.now line.now ≡ Err code) }
{
    if line.len() > MAX_LINE_BYTES {
        return Err(LinkCode::J1);
    }
    let Some((output, input)) = header_of(line) else {
        return Err(LinkCode::J1);
    };
    if !are_joined(a, b, &output, &input) {
        return Err(LinkCode::U1);
    }
    Ok((output, input))
}
