ghost use Rattle.std.specs.Prelude.{◌≡◌};
ghost use Rattle.cdk_names.specs.Visible.{Shows};
ghost use Rattle.cdk_names.specs.Names.{is_visible as spec_is_visible, visible};

use cdk_base::Text;

/// The visible components, as far as their number matters.
#[derive(Clone, Copy)]
pub enum Visible<'a> {
    Nothing,
    One(&'a str),
    Many,
}

pub fn is_visible(component: &str) -> bool
    ensures { result ≡ spec_is_visible component.now }
{
    component != "Default"
}

pub fn visible_of(components: &[Text]) -> Visible<'_>
    ensures { Shows result (visible components.now) }
{
    let mut found = Visible::Nothing;
    for component in components {
        let text = component.as_str();
        if is_visible(text) {
            match found {
                Visible::Nothing => found = Visible::One(text),
                _ => return Visible::Many,
            }
        }
    }
    found
}
