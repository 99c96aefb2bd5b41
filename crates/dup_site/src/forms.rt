// The forms of the lines that begin with a keyword.
ghost use Rattle.std.specs.Prelude.{◌≡◌, Some, None, IfOk, IsTrue, codes, map, if◌then◌else◌};
ghost use Rattle.std.specs.List.{list_all};
ghost use Rattle.std.specs.Str.{is_utf8};
ghost use Rattle.dup_names.specs.Grammar.{is_name, is_path};
ghost use Rattle.dup_template.specs.Texts.{is_prefix};
ghost use Rattle.dup_site.specs.Spelling as spelling;
ghost use Rattle.dup_site.specs.declared.site_line.SiteLine.TheVariants as line;
ghost use Rattle.dup_site.specs.SeenWords.{seen, seen_rest};

use crate::site_line::{Head, SiteLine};
use dup_lists::Listed;
use dup_names::{Name, NoMemory, Path, is_word};
use dup_template::{PageRule, Plain, Prefix};
use std::alloc::{AllocError, Global};

fn name(word: &[u8]) -> Option<Name>
    ensures { result ≡ (if is_name word.now then Some word.now else None) }
{
    Name::read(word)
}

fn path(word: &[u8]) -> Option<Path>
    ensures { result ≡ (if is_path word.now then Some word.now else None) }
{
    Path::read(word)
}

fn prefix(word: &[u8]) -> Option<Prefix>
    ensures { result ≡ (if is_prefix word.now then Some word.now else None) }
{
    match Path::read(word) {
        None => None,
        Some(path) => Prefix::read(path),
    }
}

fn name_first<'a, 'w>(words: &'a [&'w [u8]]) -> Option<(Name, &'a [&'w [u8]])>
    ensures { seen_rest result ≡ spelling.name_first (seen words.now) }
{
    match words {
        [word, rest @ ..] => match name(word) {
            None => None,
            Some(name) => Some((name, rest)),
        },
        [] => None,
    }
}

fn path_first<'a, 'w>(words: &'a [&'w [u8]]) -> Option<(Path, &'a [&'w [u8]])>
    ensures { seen_rest result ≡ spelling.path_first is_path (seen words.now) }
{
    match words {
        [word, rest @ ..] => match path(word) {
            None => None,
            Some(path) => Some((path, rest)),
        },
        [] => None,
    }
}

fn prefix_first<'a, 'w>(words: &'a [&'w [u8]]) -> Option<(Prefix, &'a [&'w [u8]])>
    ensures { seen_rest result ≡ spelling.path_first is_prefix (seen words.now) }
{
    match words {
        [word, rest @ ..] => match prefix(word) {
            None => None,
            Some(prefix) => Some((prefix, rest)),
        },
        [] => None,
    }
}

fn marked<'a, 'w>(mark: &[u8], words: &'a [&'w [u8]]) -> Option<(Option<Name>, &'a [&'w [u8]])>
    ensures { seen_rest result ≡ spelling.marked mark.now (seen words.now) }
{
    match words {
        [word, rest @ ..] => {
            if !is_word(word, mark) {
                return Some((None, words));
            }
            match name_first(rest) {
                None => None,
                Some((name, rest)) => Some((Some(name), rest)),
            }
        }
        [] => Some((None, words)),
    }
}

fn at_end(words: &[&[u8]], line: SiteLine) -> Option<SiteLine>
    ensures { result ≡ spelling.at_end (seen words.now) line }
{
    match words {
        [_, ..] => None,
        [] => Some(line),
    }
}

fn field_line(words: &[&[u8]]) -> Option<SiteLine>
    ensures { result ≡ spelling.one_name line.Field (seen words.now) }
{
    let Some((name, rest)) = name_first(words) else {
        return None;
    };
    at_end(rest, SiteLine::Field(name))
}

fn if_line(words: &[&[u8]]) -> Option<SiteLine>
    ensures { result ≡ spelling.one_name spelling.if_head (seen words.now) }
{
    let Some((name, rest)) = name_first(words) else {
        return None;
    };
    at_end(rest, SiteLine::Open(Head::If(name)))
}

fn template_line(words: &[&[u8]]) -> Option<SiteLine>
    ensures { result ≡ spelling.marked_line (codes "of") spelling.template_head (seen words.now) }
{
    let Some((name, rest)) = name_first(words) else {
        return None;
    };
    let Some((kind, rest)) = marked(b"of", rest) else {
        return None;
    };
    at_end(rest, SiteLine::Open(Head::Template { name, kind }))
}

fn embed_line(words: &[&[u8]]) -> Option<SiteLine>
    ensures { result ≡ spelling.marked_line (codes "via") line.Embed (seen words.now) }
{
    let Some((template, rest)) = name_first(words) else {
        return None;
    };
    let Some((via, rest)) = marked(b"via", rest) else {
        return None;
    };
    at_end(rest, SiteLine::Embed { template, via })
}

fn link_line(words: &[&[u8]]) -> Option<SiteLine>
    ensures { result ≡ spelling.marked_line (codes "via") spelling.link_head (seen words.now) }
{
    let Some((template, rest)) = name_first(words) else {
        return None;
    };
    let Some((via, rest)) = marked(b"via", rest) else {
        return None;
    };
    at_end(rest, SiteLine::Open(Head::Link { template, via }))
}

fn each_line(words: &[&[u8]]) -> Option<SiteLine>
    ensures { result ≡ spelling.each_line (seen words.now) }
{
    let Some((kind, rest)) = name_first(words) else {
        return None;
    };
    let Some((by, rest)) = marked(b"by", rest) else {
        return None;
    };
    let Some((order, rest)) = marked(b"order", rest) else {
        return None;
    };
    at_end(rest, SiteLine::Open(Head::Each { kind, by, order }))
}

fn page_line(words: &[&[u8]]) -> Option<SiteLine>
    ensures { result ≡ spelling.page_line (seen words.now) }
{
    let Some((path, rest)) = path_first(words) else {
        return None;
    };
    let Some((template, rest)) = name_first(rest) else {
        return None;
    };
    at_end(rest, SiteLine::Page(PageRule::Fixed { path, template }))
}

fn family_line(words: &[&[u8]]) -> Option<SiteLine>
    ensures { result ≡ spelling.family_line (seen words.now) }
{
    let Some((prefix, rest)) = prefix_first(words) else {
        return None;
    };
    let Some((template, rest)) = name_first(rest) else {
        return None;
    };
    at_end(rest, SiteLine::Page(PageRule::Family { prefix, template }))
}

fn names(alloc: Global, words: &[&[u8]]) -> Result<Option<Listed<Name>>, AllocError>
    ensures { IfOk result (λ read.
        read ≡ (if list_all is_name (seen words.now) then Some (seen words.now) else None)) }
{
    let mut names = Vec::new(alloc);
    for word in words {
        let Some(name) = name(word) else {
            return Ok(None);
        };
        names.push(name)?;
    }
    Ok(Some(Listed::of(names)))
}

fn kind_line(alloc: Global, words: &[&[u8]]) -> Result<Option<SiteLine>, NoMemory>
    ensures { IfOk result (λ read. read ≡ spelling.kind_line (seen words.now)) }
{
    match words {
        [first, rest @ ..] => match name(first) {
            None => Ok(None),
            Some(name) => match names(alloc, rest)? {
                None => Ok(None),
                Some(fields) => Ok(Some(SiteLine::Kind { name, fields })),
            },
        },
        [] => Ok(None),
    }
}

pub(crate) fn by_word(
    alloc: Global,
    word: &[u8],
    rest: &[&[u8]],
) -> Result<Option<SiteLine>, NoMemory>
    ensures { IfOk result (λ read. read ≡ spelling.by_word word.now (seen rest.now)) }
{
    if is_word(word, b"kind") {
        kind_line(alloc, rest)
    } else if is_word(word, b"template") {
        Ok(template_line(rest))
    } else if is_word(word, b"page") {
        Ok(page_line(rest))
    } else if is_word(word, b"family") {
        Ok(family_line(rest))
    } else if is_word(word, b"nl") {
        Ok(at_end(rest, SiteLine::Nl))
    } else if is_word(word, b"field") {
        Ok(field_line(rest))
    } else if is_word(word, b"key") {
        Ok(at_end(rest, SiteLine::Key))
    } else if is_word(word, b"if") {
        Ok(if_line(rest))
    } else if is_word(word, b"each") {
        Ok(each_line(rest))
    } else if is_word(word, b"embed") {
        Ok(embed_line(rest))
    } else if is_word(word, b"link") {
        Ok(link_line(rest))
    } else if is_word(word, b"end") {
        Ok(at_end(rest, SiteLine::End))
    } else {
        Ok(None)
    }
}
