ghost use Rattle.std.specs.Prelude.{◌≡◌, IfOk};
ghost use Rattle.serde_json.specs.View.{view};
ghost use Rattle.sd_run_streams.specs.TableLines.{ca_data, cas_data};

use sd_psi::{CaDescriptor, Descriptors};
use serde_json::{Value, json};
use std::alloc::{AllocError, Global};

// What is shown of the CA_descriptors among some descriptors.
#[tactic(auto, unfolding(crate::specs::TableLines::cas_data))]
pub(crate) fn cas_value(alloc: Global, descriptors: Descriptors) -> Result<Value, AllocError>
    ensures { IfOk result (λ value. view value ≡ cas_data descriptors.entry.bytes.now) }
{
    let mut rest = descriptors;
    let mut cas = Vec::new(alloc);
    while let Some(descriptor) = rest.next() {
        if let Some(ca) = descriptor.ca() {
            cas.push(ca_value(alloc, &ca)?)?;
        }
    }
    Ok(Value::Array(cas))
}

// What is shown of one.
#[tactic(auto, unfolding(crate::specs::TableLines::ca_data))]
fn ca_value(alloc: Global, ca: &CaDescriptor) -> Result<Value, AllocError>
    ensures { IfOk result (λ value. view value ≡ ca_data ca.now.bytes.now) }
{
    json!(in alloc; {"pid": ca.pid(), "system": ca.system()})
}
