ghost use Rattle.std.specs.Prelude.{◌≡◌, IfOk};
ghost use Rattle.sd_lsd.specs.Fields.{IsLayerCard, layer_fields_of, layer_bytes};

use crate::card::LayerCard;
use crate::format::{MAGIC, VERSION};
use sd_base::NoMemory;
use sd_site_cards::{write_file, write_head};
use std::alloc::{AllocError, Global};

impl LayerCard {
    /// The layer card's file [this project, docs/FORMATS.md, Layer card].
    pub fn write(&self, alloc: Global) -> Result<Vec<u8>, NoMemory>
        ensures value { IfOk result (λ bytes. bytes.items ≡ layer_bytes (layer_fields_of self.now)) }
        ensures fits { IfOk result (λ _. IsLayerCard (layer_fields_of self.now)) }
    {
        Ok(self.file(alloc)?)
    }

    // The head and the secrets, as a file.
    fn file(&self, alloc: Global) -> Result<Vec<u8>, AllocError>
        ensures value { IfOk result (λ bytes. bytes.items ≡ layer_bytes (layer_fields_of self.now)) }
        ensures fits { IfOk result (λ _. IsLayerCard (layer_fields_of self.now)) }
    {
        let fields = [VERSION, self.height.get(), self.width.get()];
        let head = write_head(alloc, &MAGIC, &fields, self.leaf, self.ca)?;
        write_file(alloc, &head, &self.secrets)
    }
}
