use crate::{SiteTextRefusal, body_lines, read_body, read_site, site_text};
use dup_names::{Name, NoMemory, Path, Text};
use dup_template::{SharedBody, Site, SiteRefusal, What};
use std::alloc::{AllocError, Global};

const SITE: &[u8] =
    b"# a site\n  kind event title\n\nkind result  event who place \ntemplate line of result\n= <li>\nfield place\nend\ntemplate event_page of event\n= <h1>\n  each result by event order place\nembed line\nend\nlink event_page\nnl\nend\nend\nfamily /event event_page";

#[test]
fn site_is_read_and_written(rt: HostRuntime) {
    let alloc = rt.alloc();
    let site = read_site(alloc, SITE).ok().expect(&rt, "a site");
    let text = site_text(alloc, &site).ok().expect(&rt, "memory");
    assert!(rt;
        text.as_slice()
            == b"kind event title\nkind result event who place\ntemplate line of result\n= <li>\nfield place\nend\ntemplate event_page of event\n= <h1>\neach result by event order place\nembed line\nend\nlink event_page\nnl\nend\nend\nfamily /event event_page\n".as_slice()
    );
}

#[test]
fn line_in_no_place_is_bad(rt: HostRuntime) {
    let alloc = rt.alloc();
    let read = read_site(alloc, b"kind a\ntemplate t\nend\nkind b\n");
    assert!(rt; matches!(read, Err(SiteTextRefusal::BadLine(4))));
    let open = read_site(
        alloc,
        b"kind event title\ntemplate event_page of event\n= <h1>\nfield title\n= </h1>\nend\nfamily /event event_page\n--\n",
    );
    assert!(rt; matches!(open, Err(SiteTextRefusal::BadLine(8))));
}

fn nested(alloc: Global, templates: usize, depth: usize) -> Result<Vec<u8>, AllocError> {
    let mut text = Vec::new(alloc);
    for _ in 0..templates {
        text.extend_from_slice(b"template t\n")?;
        for _ in 0..depth {
            text.extend_from_slice(b"if f\n")?;
        }
        for _ in 0..depth {
            text.extend_from_slice(b"end\n")?;
        }
        text.extend_from_slice(b"end\n")?;
    }
    Ok(text)
}

#[test]
fn deep_nesting_is_answered(rt: HostRuntime) {
    let alloc = rt.alloc();
    let many = SiteTextRefusal::Check(SiteRefusal::TooMany(What::Statements));
    let name = Name::read(b"t").expect(&rt, "a name");
    let twice = SiteTextRefusal::Check(SiteRefusal::Twice(name));
    let wrong = SiteTextRefusal::Check(SiteRefusal::WrongKind(name));
    for (templates, depth, answer) in [
        (1, 9, wrong),
        (1, 4096, wrong),
        (1, 4097, many),
        (1, 30_000, many),
        (4, 4096, twice),
    ] {
        let text = nested(alloc, templates, depth).ok().expect(&rt, "memory");
        let read = read_site(alloc, text.as_slice()).err();
        assert!(rt; read == Some(answer), "{templates} {depth}");
        let end = text.len().saturating_sub(4);
        let cut = read_site(alloc, &text[..end]).err();
        assert!(rt;
            matches!(cut, Some(SiteTextRefusal::BadLine(_))),
            "{templates} {depth}"
        );
    }
}

#[test]
fn rules_are_looked_at_in_order(rt: HostRuntime) {
    let alloc = rt.alloc();
    let a = Name::read(b"a").expect(&rt, "a name");
    let t = Name::read(b"t").expect(&rt, "a name");
    let u = Name::read(b"u").expect(&rt, "a name");
    let clash = Path::read(b"/p/k").expect(&rt, "a path");
    let prefix = Path::read(b"/p").expect(&rt, "a path");
    let rows: [(&str, SiteRefusal); 27] = [
        ("kind a\nkind a\n", SiteRefusal::Twice(a)),
        ("kind a u u\n", SiteRefusal::Twice(u)),
        ("kind a t t\nkind a\n", SiteRefusal::Twice(t)),
        (
            "kind a\nkind a\ntemplate t of u\nend\n",
            SiteRefusal::Twice(a),
        ),
        (
            "template t\nend\ntemplate t of u\nend\n",
            SiteRefusal::Twice(t),
        ),
        ("template t of u\nend\n", SiteRefusal::Unknown(u)),
        (
            "template t of a\nkey\nend\npage / u\n",
            SiteRefusal::Unknown(a),
        ),
        ("template t\nend\npage / u\n", SiteRefusal::Unknown(u)),
        (
            "kind a\ntemplate t of a\nend\npage / t\n",
            SiteRefusal::WrongKind(t),
        ),
        ("template t\nend\nfamily /p t\n", SiteRefusal::WrongKind(t)),
        (
            "template t\nend\npage / t\npage / t\n",
            SiteRefusal::Twice(t),
        ),
        (
            "kind a\ntemplate t\nend\ntemplate u of a\nend\npage /p/k t\nfamily /p u\n",
            SiteRefusal::PathClash(prefix),
        ),
        (
            "kind a\ntemplate t\nend\ntemplate u of a\nend\nfamily /p u\npage /p/k t\n",
            SiteRefusal::PathClash(clash),
        ),
        (
            "template t\nfield a\nend\npage / u\n",
            SiteRefusal::Unknown(u),
        ),
        ("template t\nfield a\nend\n", SiteRefusal::WrongKind(t)),
        (
            "kind a\ntemplate t of a\nfield u\nend\n",
            SiteRefusal::Unknown(u),
        ),
        ("template t\nkey\nend\n", SiteRefusal::WrongKind(t)),
        (
            "template t\neach a by u\nend\nend\n",
            SiteRefusal::Unknown(a),
        ),
        (
            "kind a\ntemplate t\neach a by u\nend\nend\n",
            SiteRefusal::WrongKind(t),
        ),
        (
            "kind a\ntemplate t\neach a order u\nend\nend\n",
            SiteRefusal::Unknown(u),
        ),
        ("template t\nembed u\nend\n", SiteRefusal::Unknown(u)),
        (
            "template t\nembed u\nend\ntemplate u\nend\n",
            SiteRefusal::LaterTemplate(u),
        ),
        ("template t\nembed t\nend\n", SiteRefusal::LaterTemplate(t)),
        (
            "kind a\ntemplate u of a\nend\ntemplate t\nembed u\nend\n",
            SiteRefusal::WrongKind(u),
        ),
        (
            "template u\nend\ntemplate t\nembed u via a\nend\n",
            SiteRefusal::WrongKind(u),
        ),
        (
            "template u\nend\ntemplate t\nlink u\nend\nend\n",
            SiteRefusal::NoPage(u),
        ),
        (
            "kind a\ntemplate u of a\nend\ntemplate t\nlink u\nnl\nend\nend\nfamily /p u\n",
            SiteRefusal::WrongKind(u),
        ),
    ];
    for (text, refusal) in rows {
        let read = read_site(alloc, text.as_bytes()).err();
        assert!(rt; read == Some(SiteTextRefusal::Check(refusal)), "{text}");
    }
}

fn texts(alloc: Global, lines: &[&str]) -> Result<Vec<Text>, NoMemory> {
    let mut made = Vec::new(alloc);
    for line in lines {
        if let Some(text) = Text::read(alloc, line.as_bytes())? {
            made.push(text)?;
        }
    }
    Ok(made)
}

#[test]
fn bodies_are_told_apart(rt: HostRuntime) {
    let alloc = rt.alloc();
    let rows: [(&str, &[&str], Option<u64>); 18] = [
        ("none", &[], Some(0)),
        ("three", &["= <b>", "field title", "= </b>"], Some(3)),
        ("spaces", &["  field   title ", " = a ", "", "# b"], Some(2)),
        (
            "nested",
            &[
                "if a",
                "each k by a order b",
                "link t via a",
                "end",
                "end",
                "end",
            ],
            Some(6),
        ),
        ("end alone", &["end"], None),
        (
            "end of the template",
            &["nl", "end", "template u", "nl"],
            None,
        ),
        ("end too many", &["if a", "end", "end"], None),
        ("open if", &["if a", "nl"], None),
        ("open each", &["each k", "if a", "end"], None),
        ("kind", &["kind k"], None),
        ("template", &["template u"], None),
        ("page", &["page / t"], None),
        ("family", &["family /p t"], None),
        ("no form", &["nl", "fields a"], None),
        ("feed in a comment", &["# a\n# b"], None),
        ("feed behind a word", &["nl\n"], None),
        ("two lines in one", &["nl\nnl"], None),
        ("return in a text", &["= a\r"], None),
    ];
    for (name, lines, count) in rows {
        let lines = texts(alloc, lines).ok().expect(&rt, "memory");
        let body = read_body(alloc, lines.as_slice())
            .ok()
            .expect(&rt, "memory");
        assert!(rt; body.map(|body| body.lines()) == count, "{name}");
    }
}

#[test]
fn body_is_written(rt: HostRuntime) {
    let alloc = rt.alloc();
    let lines = [
        " each   k  order a",
        "#",
        "= <b> ",
        "",
        "embed u  via b",
        " end ",
    ];
    let lines = texts(alloc, &lines).ok().expect(&rt, "memory");
    let body = read_body(alloc, lines.as_slice())
        .ok()
        .flatten()
        .expect(&rt, "a body");
    let written = body_lines(alloc, &body).ok().expect(&rt, "memory");
    let canonical = ["each k order a", "= <b> ", "embed u via b", "end"];
    assert_eq!(rt; written.len(), canonical.len());
    for i in 0..canonical.len() {
        assert!(rt; written[i].bytes() == canonical[i].as_bytes(), "{i}");
    }
}

fn nest(alloc: Global, depth: usize) -> Result<Vec<Text>, NoMemory> {
    let mut lines = Vec::new(alloc);
    for line in ["if f", "end"] {
        let Some(text) = Text::read(alloc, line.as_bytes())? else {
            return Ok(lines);
        };
        for _ in 0..depth {
            lines.push(text.share()?)?;
        }
    }
    Ok(lines)
}

fn refused(alloc: Global, site: &Site, body: &SharedBody) -> Option<SiteRefusal> {
    if site.templates().is_empty() {
        return None;
    }
    site.with_body(alloc, 0, body).err()
}

#[test]
fn deep_bodies_are_answered(rt: HostRuntime) {
    let alloc = rt.alloc();
    let site = read_site(alloc, b"kind k f\ntemplate t of k\nend\n")
        .ok()
        .expect(&rt, "a site");
    for (depth, answer) in [
        (8, None),
        (9, Some(SiteRefusal::TooMany(What::Nesting))),
        (2048, Some(SiteRefusal::TooMany(What::Nesting))),
    ] {
        let lines = nest(alloc, depth).ok().expect(&rt, "memory");
        let body = read_body(alloc, lines.as_slice())
            .ok()
            .flatten()
            .expect(&rt, "a body");
        assert_eq!(rt; body.longest(), 4);
        assert!(rt; refused(alloc, &site, &body) == answer, "{depth}");
        let written = body_lines(alloc, &body).ok().expect(&rt, "memory");
        let again = read_body(alloc, written.as_slice()).ok().flatten();
        assert!(rt; again == Some(body), "{depth}");
        let end = lines.len().saturating_sub(1);
        let cut = read_body(alloc, &lines[..end]).ok().expect(&rt, "memory");
        assert!(rt; cut.is_none(), "{depth}");
    }
}
