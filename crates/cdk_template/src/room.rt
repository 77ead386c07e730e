// How many constructs of each kind a template may still take.
ghost use Rattle.std.specs.Prelude.{◌≡◌};
ghost use Rattle.cdk_language.specs.Construct.{kind_view};
ghost use Rattle.cdk_template.specs.Room.{one_less as spec_one_less, room_beside};

use cdk_language::Kind;

#[derive(Clone, Copy)]
pub(crate) struct Room {
    resources: u32,
    parameters: u32,
    mappings: u32,
    outputs: u32,
}

fn one_less(left: u32) -> Option<u32>
    ensures { result ≡ spec_one_less left }
{
    if left == 0 { None } else { Some(left - 1) }
}

impl Room {
    /// The room of a template (CloudFormation's quotas).
    pub(crate) fn of_template() -> Room
        ensures { result ≡ record { resources = 500; parameters = 200; mappings = 200; outputs = 200 } }
    {
        Room {
            resources: 500,
            parameters: 200,
            mappings: 200,
            outputs: 200,
        }
    }

    /// The room beside a construct. None exactly where there is none for it.
    pub(crate) fn beside(self, kind: &Kind) -> Option<Room>
        ensures { result ≡ room_beside self (kind_view kind.now) }
    {
        match kind {
            Kind::Resource(_) => match one_less(self.resources) {
                Some(resources) => Some(Room { resources, ..self }),
                None => None,
            },
            Kind::Parameter(_) => match one_less(self.parameters) {
                Some(parameters) => Some(Room { parameters, ..self }),
                None => None,
            },
            Kind::Mapping(_) => match one_less(self.mappings) {
                Some(mappings) => Some(Room { mappings, ..self }),
                None => None,
            },
            Kind::Output(_) => match one_less(self.outputs) {
                Some(outputs) => Some(Room { outputs, ..self }),
                None => None,
            },
            Kind::App
            | Kind::Stage
            | Kind::Stack { .. }
            | Kind::Group
            | Kind::Condition(_)
            | Kind::Lazy(_) => Some(self),
        }
    }
}
