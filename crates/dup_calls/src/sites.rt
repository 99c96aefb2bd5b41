// Sites of the rows, besides those that other tests read too.
use dup_site::read_site;
use dup_template::Site;
use std::alloc::Global;
use std::sync::Arc;
use std::test::Fail;

/// Events that link to the next one.
pub(crate) const CHAIN_SITE: &[u8] = b"kind event title next
template event_page of event
field title
link event_page via next
= next
end
end
family /event event_page
";

/// Athletes, whose medals stand on each page.
pub(crate) const MEDALS_SITE: &[u8] = b"kind athlete name gold
template medals
= [
each athlete
field gold
end
= ]
end
template home
embed medals
end
template athlete_page of athlete
field name
embed medals
end
page / home
family /athlete athlete_page
";

/// Pages of two halves.
pub(crate) const HALVES_SITE: &[u8] = b"kind pair a b
template left of pair
field a
end
template right of pair
field b
end
template pair_page of pair
embed left
embed right
end
family /pair pair_page
";

/// The page of each event is embedded by the page of all of them.
pub(crate) const LISTED_SITE: &[u8] = b"kind event title
template line of event
= <li>
field title
end
template list
each event
embed line
end
end
page /list list
family /event line
";

/// The site that a text says.
pub(crate) fn site_of(alloc: Global, text: &[u8]) -> Result<Arc<Site, Global>, Fail> {
    let site = read_site(alloc, text).ok().ok_or("a good site")?;
    Ok(Arc::new(alloc, site)?)
}
