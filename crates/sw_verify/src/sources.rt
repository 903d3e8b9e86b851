//! Where the layers of a scan take their triggers from.

ghost use Rattle.std.specs.Prelude.{◌≡◌, ◌<◌, length};
ghost use Rattle.sw_verify.specs.Course.{layers, layer_number, source_at, sources_of};

use std::marker::Model;
use sw_base::{ARM_LAYERS, ARMS, LayerName, Source};
use sw_trigger::Settings;

/// How many layers have a source: TRIGger and the ARM layers.
const LAYERS: usize = ARM_LAYERS as usize + 1;

/// By layer, where its wait takes its trigger from.
#[derive(Debug, Drop)]
pub struct Sources {
    by_layer: [Source; LAYERS],
}

impl Model for Sources {
    ghost use Rattle.std.specs.Prelude.{List};
    ghost use Rattle.sw_base.specs.declared.terms.Source.{Source};

    ghost Value = { List Source };

    ghost view = { λ s. s.by_layer };

    ghost use Rattle.sw_verify.specs.SourcesSeen.{HasLayers};

    ghost invariant = { HasLayers };
}

impl Sources {
    /// The sources of the settings.
    pub fn new(settings: &Settings) -> Sources
        ensures { result ≡ sources_of settings.now }
    {
        let mut by_layer = [settings.layer(LayerName::Trigger).source; LAYERS];
        for i in 0..ARM_LAYERS as usize {
            by_layer[i + 1] = settings.layer(LayerName::Arm(ARMS[i])).source;
        }
        Sources { by_layer }
    }

    /// Where the layer's wait takes its trigger from.
    pub fn source(&self, name: LayerName) -> Source
        ensures { result ≡ source_at self.now name }
    {
        self.by_layer[layer_number(name)]
    }
}

/// The layer's number: 0 for TRIGger, and an ARM layer's own.
fn layer_number(name: LayerName) -> usize
    ensures number { result ≡ layer_number name }
    ensures within { result < length layers }
{
    match name {
        LayerName::Arm(arm) => arm.number() as usize,
        LayerName::Trigger => 0,
    }
}
