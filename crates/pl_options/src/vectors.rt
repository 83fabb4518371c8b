ghost use Rattle.std.specs.Prelude.{◌≡◌, [], ◌∷◌, codes, false, pos, true};
ghost use Rattle.pl_state.specs.Component.{plain_goal};
ghost use Rattle.pl_state.specs.Kinds.{is_default_name};
ghost use Rattle.pl_options.specs.Example as example;
ghost use Rattle.pl_options.specs.GoalOf.{goal_of, option_fault};
ghost use Rattle.pl_options.specs.Ignored.{reset_at_each};
ghost use Rattle.pl_options.specs.Names.{default_name, default_provider_urn, id_text};

use pl_state::OptionFault;
use pl_value::Value;

/// A few names of default providers. It is proved and does nothing.
pub fn default_vectors()
    ensures without_version { default_name None ≡ codes "default" }
    ensures of_version { default_name (Some (codes "1.2.0-rc.1+b")) ≡ codes "default_1_2_0_rc_1_b" }
    ensures urn { default_provider_urn (codes "dev") (codes "web") (codes "toy") None
        ≡ codes "urn:pulumi:dev::web::pulumi:providers:toy::default" }
    ensures told { is_default_name (codes "default_1") ≡ true }
    ensures other { is_default_name (codes "defaults") ≡ false }
{}

/// An id. It is proved and does nothing.
pub fn id_vectors()
    ensures one { id_text 1 ≡ codes "00000000-0000-4000-8000-000000000001" }
    ensures all_bits { id_text 340282366920938463463374607431768211455 ≡ codes "ffffffff-ffff-4fff-bfff-ffffffffffff" }
{}

/// A few goals. It is proved and does nothing.
pub fn goal_vectors()
    ensures plain { goal_of example.stack example.project example.told
        ≡ Ok (plain_goal (codes "urn:pulumi:dev::web::toy:index:Thing::a") (codes "toy:index:Thing") None) }
    ensures below { goal_of example.stack example.project (record example.told { parent = Some example.other })
        ≡ Ok (plain_goal (codes "urn:pulumi:dev::web::t$toy:index:Thing::a") (codes "toy:index:Thing") (Some example.other)) }
    ensures deleted_with { goal_of example.stack example.project (record example.told { deleted_with = Some example.other })
        ≡ Ok (record (plain_goal (codes "urn:pulumi:dev::web::toy:index:Thing::a") (codes "toy:index:Thing") None) { deleted_with = Some example.other }) }
    ensures empty_texts { goal_of example.stack example.project
        (record example.told { parent = Some []; provider = Some []; deleted_with = Some []; version = Some []; import_id = Some []; read_id = Some [] })
        ≡ goal_of example.stack example.project example.told }
    ensures no_fault { option_fault (record example.told {
      provider = Some example.reference;
      version = Some (codes "1.2.0-rc.1");
      ignore_changes = codes "a.b" ∷ [];
      aliases = example.other ∷ [];
    }) ≡ None }
{}

/// A refusal of each kind. It is proved and does nothing.
pub fn refusal_vectors()
    ensures parent { option_fault (record example.told { parent = Some (codes "x") }) ≡ Some (OptionFault.BadReference (codes "x")) }
    ensures provider { option_fault (record example.told { provider = Some example.other })
        ≡ Some (OptionFault.BadReference example.other) }
    ensures kind { option_fault (record example.told { kind = codes "a::b" }) ≡ Some (OptionFault.BadUrn (codes "a::b")) }
    ensures name { option_fault (record example.told { name = [] }) ≡ Some (OptionFault.BadUrn []) }
    ensures path { option_fault (record example.told { ignore_changes = codes "a" ∷ codes "a..b" ∷ [] })
        ≡ Some (OptionFault.BadPath (codes "a..b")) }
    ensures version { option_fault (record example.told { version = Some (codes "1.2") }) ≡ Some (OptionFault.BadVersion (codes "1.2")) }
    ensures provider_of_provider { option_fault (record example.told { kind = codes "pulumi:providers:toy"; provider = Some example.reference })
        ≡ Some OptionFault.ProviderOfProvider }
{}

/// Refusals of registrations that have two faults. It is proved and does nothing.
pub fn order_vectors()
    ensures references { option_fault (record example.told {
      dependencies = example.other ∷ codes "d" ∷ [];
      property_dependencies = (codes "k", codes "p" ∷ []) ∷ [];
      aliases = codes "a" ∷ [];
    })
        ≡ Some (OptionFault.BadReference (codes "d")) }
    ensures deleter_before_alias { option_fault (record example.told {
      property_dependencies = (codes "k", example.other ∷ []) ∷ [];
      deleted_with = Some (codes "w");
      aliases = codes "a" ∷ [];
    }) ≡ Some (OptionFault.BadReference (codes "w")) }
    ensures deleter_after_property { option_fault (record example.told {
      property_dependencies = (codes "k", codes "p" ∷ []) ∷ [];
      deleted_with = Some (codes "w");
    }) ≡ Some (OptionFault.BadReference (codes "p")) }
    ensures alias_last { option_fault (record example.told {
      property_dependencies = (codes "k", example.other ∷ codes "p" ∷ []) ∷ [];
      aliases = codes "a" ∷ [];
    }) ≡ Some (OptionFault.BadReference (codes "p")) }
    ensures reference_first { option_fault (record example.told { kind = []; aliases = codes "a" ∷ [] })
        ≡ Some (OptionFault.BadReference (codes "a")) }
    ensures path_before_version { option_fault (record example.told { ignore_changes = codes "*" ∷ []; version = Some (codes "1") })
        ≡ Some (OptionFault.BadPath (codes "*")) }
{}

/// Inputs that are set back at two paths. It is proved and does nothing.
pub fn ignored_vectors()
    ensures { reset_at_each (codes "a" ∷ codes "b" ∷ [])
        ((codes "a", Value.Null) ∷ (codes "b", Value.Null) ∷ (codes "c", Value.Null) ∷ [])
        ((codes "b", Value.Unknown) ∷ (codes "c", Value.Unknown) ∷ [])
        ≡ (codes "b", Value.Unknown) ∷ (codes "c", Value.Null) ∷ [] }
{}
