// The words of rows.
use crate::codes::answer_codes;
use crate::diagrams::answer_disjoint;
use crate::edges::{answer_edges, answer_terms};
use crate::front::{answer_check, answer_expand, answer_print, answer_read};
use crate::overlap::{answer_overlap, answer_together};
use crate::stop::Stop;
use crate::trees::{answer_term, answer_tree};
use row_files::NamedText;
use std::alloc::Global;

fn bytes_of<'a>(files: &'a [NamedText], name: &str) -> Option<&'a [u8]> {
    let file = files.iter().find(|file| file.name.as_str() == name)?;
    Some(file.bytes.as_slice())
}

/// What the words print of the files that they name. `None` where they are none of those below, or name a file that
/// isn't there.
pub(crate) fn answer_words(
    alloc: Global,
    words: &[String],
    files: &[NamedText],
) -> Option<Result<Vec<u8>, Stop>> {
    match words {
        [word, text] => {
            let text = bytes_of(files, text.as_str())?;
            answer_one(alloc, word.as_str(), text)
        }
        _ => None,
    }
}

fn answer_one(alloc: Global, word: &str, text: &[u8]) -> Option<Result<Vec<u8>, Stop>> {
    let answer = match word {
        "read" => answer_read(alloc, text),
        "print" => answer_print(alloc, text),
        "check" => answer_check(alloc, text),
        "expand" => answer_expand(alloc, text),
        "tree" => answer_tree(alloc, text),
        "term" => answer_term(alloc, text),
        "edges" => answer_edges(alloc, text),
        "terms" => answer_terms(alloc, text),
        "overlap" => answer_overlap(alloc, text),
        "together" => answer_together(alloc, text),
        "codes" => answer_codes(alloc, text),
        "disjoint" => answer_disjoint(alloc, text),
        _ => return None,
    };
    Some(answer)
}
