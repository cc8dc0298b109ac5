//! A site of which all is kept.
ghost use Rattle.std.specs.Prelude.{◌≡◌, IfErr, IfOk};
ghost use Rattle.rds_files.specs.Files.{IsUnkept};
ghost use Rattle.rds_http.specs.Site.{after_keep, after_news};

use rds_files::{Disk, LockFile};
use rds_http::Site;
use rds_names::Fault;
use std::marker::Model;

/// A site whose document is kept as it is, for as long as this is held: nobody edits it meanwhile. Only by this does
/// anything go to a client.
#[derive(Drop)]
pub struct Committed<'s, 'a, H: Disk> {
    site: &'s Site<'a, H>,
    news: Option<String>,
}

impl<'s, 'a, H: Disk> Model for Committed<'s, 'a, H> {
    ghost use Rattle.std.specs.Prelude.{◌≡◌};
    ghost use Rattle.rds_http.specs.Site.{SiteValue, coded_site};

    ghost Value = { SiteValue };

    ghost coded = { coded_site };

    ghost view = { λ c. c.site.now };

    ghost invariant = { λ c. c.site.now.document ≡ c.site.now.kept };
}

/// Keeps the site's document in its file, where it changed since it was kept last, and takes the news of that. Refuses as
/// [`Site::keep`] does.
pub fn commit<'s, 'a, H: Disk>(
    rt: &H,
    site: &'s mut Site<'a, H>,
) -> Result<Committed<'s, 'a, H>, Fault>
where
    H::File: LockFile,
    ensures kept { IfOk result (λ committed. committed ≡ after_news (after_keep site.old)) }
    ensures fault { IfErr result (IsUnkept site.old.document) }
{
    site.keep(rt)?;
    let news = site.news();
    Ok(Committed { site, news })
}

impl<H: Disk> Committed<'_, '_, H> {
    /// What listeners are told of the turn, where it changed something.
    pub fn news(&self) -> Option<&str> {
        match &self.news {
            Some(news) => Some(news.as_str()),
            None => None,
        }
    }
}
