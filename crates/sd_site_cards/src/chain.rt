ghost use Rattle.std.specs.Prelude.{◌≡◌, ◌+◌, ◌<◌, ◌≤◌};
ghost use Rattle.sd_site_cards.specs.SiteFields.{site_fields_of};
ghost use Rattle.sd_site_cards.specs.Chain.{next_site, twin_site};

use crate::site::{MOST_FIRST_PERIOD, MOST_WORD, NAMING_MESSAGES, Site};

impl Site {
    /// The site of a broadcast at the same time: so many control words after this site's, the same first period.
    pub fn twin(&self, words: u32) -> Site
        requires some { 1 ≤ words }
        requires room { self.now.last_word + words ≤ MOST_WORD }
        ensures { site_fields_of result ≡ twin_site words (site_fields_of self.now) }
    {
        self.following(words, self.first_period)
    }

    /// The site of a broadcast after it: so many control words after this site's, and a first period above its own and
    /// above `last`, the last one of its book.
    pub fn next(&self, last: u32, words: u32) -> Site
        requires some { 1 ≤ words }
        requires room { self.now.last_word + words ≤ MOST_WORD }
        requires period { (self.now.first_period < MOST_FIRST_PERIOD) × (last < MOST_FIRST_PERIOD) }
        ensures { site_fields_of result ≡ next_site last words (site_fields_of self.now) }
    {
        self.following(words, self.first_period.max(last) + 1)
    }

    // The site with so many control words after this site's, and this first period.
    fn following(&self, words: u32, first_period: u32) -> Site
        requires some { 1 ≤ words }
        requires room { self.now.last_word + words ≤ MOST_WORD }
        ensures { site_fields_of result ≡ record (twin_site words (site_fields_of self.now)) {
          first_period =
              first_period;
        } }
    {
        Site {
            height: self.height,
            master: self.master,
            ca: self.ca,
            emm: self.emm,
            ecm: self.ecm,
            every: self.every,
            cryptos: self.cryptos,
            span: self.span,
            messages: NAMING_MESSAGES,
            first_word: self.last_word + 1,
            last_word: self.last_word + words,
            first_period,
        }
    }
}
