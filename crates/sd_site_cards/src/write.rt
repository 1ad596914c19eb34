ghost use Rattle.std.specs.Prelude.{◌≡◌, IfOk};
ghost use Rattle.sd_site_cards.specs.CardFields.{IsCard, card_fields_of, card_bytes};

use crate::card::Card;
use crate::format::{MAGIC, VERSION};
use crate::{write_file, write_head};
use sd_base::NoMemory;
use std::alloc::{AllocError, Global};

impl Card {
    /// The card's file [this project, docs/FORMATS.md, Card].
    pub fn write(&self, alloc: Global) -> Result<Vec<u8>, NoMemory>
        ensures value { IfOk result (λ bytes. bytes.items ≡ card_bytes (card_fields_of self.now)) }
        ensures fits { IfOk result (λ _. IsCard (card_fields_of self.now)) }
    {
        Ok(self.file(alloc)?)
    }

    // The head and the secrets, as a file.
    fn file(&self, alloc: Global) -> Result<Vec<u8>, AllocError>
        ensures value { IfOk result (λ bytes. bytes.items ≡ card_bytes (card_fields_of self.now)) }
        ensures fits { IfOk result (λ _. IsCard (card_fields_of self.now)) }
    {
        let fields = [VERSION, self.height.get()];
        let head = write_head(alloc, &MAGIC, &fields, self.leaf, self.ca)?;
        write_file(alloc, &head, &self.secrets)
    }
}
