//! A model that a text takes the place of.
ghost use Rattle.std.specs.Prelude.{◌≡◌, Ok, OnOk, OnErr};
ghost use Rattle.model_json.specs.Text.{load_of};

use model_core::Model;
use model_json::{LoadFault, load};
use std::alloc::Global;
use std::test::Fail;

// Puts the model that a text is in the place of another one, which stays where the text is refused.
fn replace(alloc: Global, model: &mut Model, text: &[u8]) -> Result<(), LoadFault>
    ensures loaded { OnOk result (load_of text.now ≡ Ok model.new) }
    ensures stays { OnErr result (model.new ≡ model.old) }
{
    *model = load(alloc, text)?;
    Ok(())
}

#[test]
fn a_model_is_replaced(rt: HostRuntime) -> Result<(), Fail> {
    let mut model = Model::empty(rt.alloc())?;
    let is_loaded = replace(rt.alloc(), &mut model, b"{\"macbeth\":1,\"criteria\":[]}").is_ok();
    let is_refused = replace(rt.alloc(), &mut model, b"{}").is_err();
    drop(model);
    assert_eq!(rt; (is_loaded, is_refused), (true, true));
    Ok(())
}
