use crate::{
    Body, Parts, SharedBody, Site, SiteRefusal, SiteTextRefusal, Statement, TemplatePart, What,
};
use dup_lists::Listed;
use dup_names::{Name, Path};
use std::alloc::Global;
use std::test::Fail;

fn body(alloc: Global, statements: Vec<Statement>) -> Result<SharedBody, Fail> {
    Ok(SharedBody::of(alloc, Body::of(statements))?)
}

fn name(text: &str) -> Result<Name, Fail> {
    let name = Name::read(text.as_bytes()).ok_or("a name")?;
    Ok(name)
}

// A site of one template without a kind, of two statements.
fn two_lines(alloc: Global) -> Result<Result<Site, SiteRefusal>, Fail> {
    let part = TemplatePart {
        name: name("t")?,
        kind: None,
        body: body(alloc, vec![in alloc; Statement::Nl, Statement::Nl]?)?,
    };
    Ok(Site::check(Parts {
        kinds: Listed::of(Vec::new(alloc)),
        templates: Listed::of(vec![in alloc; part]?),
        pages: Listed::of(Vec::new(alloc)),
    }))
}

#[test]
fn template_of_two_statements_is_a_site(rt: HostRuntime) -> Result<(), Fail> {
    assert!(rt; two_lines(rt.alloc())?.is_ok());
    Ok(())
}

// A new body for the one template, and why it is refused, if it is.
fn replaced(alloc: Global, statement: Statement) -> Result<Option<SiteRefusal>, Fail> {
    let site = two_lines(alloc)?.ok().ok_or("a site")?;
    if site.templates().is_empty() {
        return Err("no template".into());
    }
    let new = body(alloc, vec![in alloc; statement]?)?;
    Ok(site.with_body(alloc, 0, &new).err())
}

#[test]
fn bodies_are_replaced(rt: HostRuntime) -> Result<(), Fail> {
    let alloc = rt.alloc();
    let rows = [
        ("nothing is named", Statement::Nl, None),
        (
            "there is no row",
            Statement::Key,
            Some(SiteRefusal::WrongKind(name("t")?)),
        ),
        (
            "no such template",
            Statement::Embed {
                template: name("u")?,
                via: None,
            },
            Some(SiteRefusal::Unknown(name("u")?)),
        ),
        (
            "itself",
            Statement::Embed {
                template: name("t")?,
                via: None,
            },
            Some(SiteRefusal::LaterTemplate(name("t")?)),
        ),
    ];
    for (row, statement, wanted) in rows {
        assert!(rt; replaced(alloc, statement)? == wanted, "at {row}");
    }
    Ok(())
}

#[test]
fn lines_of_a_body_are_counted(rt: HostRuntime) -> Result<(), Fail> {
    let alloc = rt.alloc();
    let within = Listed::of(vec![in alloc; Statement::Nl]?);
    let each = Statement::Each {
        kind: name("event")?,
        by: Some(name("day")?),
        order: None,
        body: within,
    };
    let made = body(alloc, vec![in alloc; each]?)?;
    // each event by day, nl, end
    assert_eq!(rt; made.lines(), 3);
    assert_eq!(rt; made.longest(), 17);
    assert_eq!(rt; made.length(), 22);
    Ok(())
}

#[test]
fn refusals_are_printed(rt: HostRuntime) {
    let alloc = rt.alloc();
    let name = Name::read(b"medals").expect(&rt, "a name");
    let path = Path::read(b"/a.b").expect(&rt, "a path");
    let rows = [
        (SiteTextRefusal::BadLine(8), "bad line 8"),
        (
            SiteTextRefusal::Check(SiteRefusal::Twice(name)),
            "twice medals",
        ),
        (
            SiteTextRefusal::Check(SiteRefusal::PathClash(path)),
            "path clash /a.b",
        ),
        (
            SiteTextRefusal::Check(SiteRefusal::TooMany(What::Nesting)),
            "too many Nesting",
        ),
    ];
    for (refusal, text) in &rows {
        let printed = format!(in alloc; "{refusal}").ok().expect(&rt, "memory");
        assert!(rt; printed.as_str() == *text, "at {text}");
    }
}
