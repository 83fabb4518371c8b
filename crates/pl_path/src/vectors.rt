ghost use Rattle.std.specs.Prelude.{◌≡◌, [], ◌∷◌, codes, false, pos, true};
ghost use Rattle.pl_path.specs.Found.{value_at};
ghost use Rattle.pl_path.specs.Grammar.{bad_place, is_path, segments_of};
ghost use Rattle.pl_path.specs.Nested.{nested};
ghost use Rattle.pl_path.specs.Reset.{reset_at};

use crate::segment::Segment;
use pl_value::Value;

/// A few texts that are paths, with their segments. It is proved and does nothing.
pub fn path_vectors()
    ensures mixed { segments_of (codes "a.b[0][\"c\"]") ≡ Some (Segment.Key (codes "a") ∷ Segment.Key (codes "b")
        ∷ Segment.Index 0 ∷ Segment.Key (codes "c") ∷ []) }
    ensures brackets_first { segments_of (codes "[\"\"].a b") ≡ Some (Segment.Key [] ∷ Segment.Key (codes "a b") ∷ []) }
    ensures greatest_index { segments_of (codes "[2147483647]") ≡ Some (Segment.Index 2147483647 ∷ []) }
    ensures escaped { segments_of (codes "[\"a\\\"b\\\\\"]") ≡ Some (Segment.Key (codes "a\"b\\") ∷ []) }
    ensures star_in_name { segments_of (codes "*a.b*") ≡ Some (Segment.Key (codes "*a") ∷ Segment.Key (codes "b*") ∷ []) }
    ensures told { is_path (codes "a[10]") ≡ true }
{}

/// A few texts that are no paths, each with the place of the byte that is refused. It is proved and does nothing.
pub fn refusal_vectors()
    ensures two_dots { bad_place (codes "a..b") ≡ Some 2 }
    ensures leading_zero { bad_place (codes "a[01]") ≡ Some 3 }
    ensures star_alone { bad_place (codes "*") ≡ Some 0 }
    ensures star_before_bad_byte { bad_place (codes "a.*\"") ≡ Some 2 }
    ensures star_in_brackets { bad_place (codes "a[*]") ≡ Some 2 }
    ensures nothing { bad_place [] ≡ Some 0 }
    ensures index_too_great { bad_place (codes "[2147483648]") ≡ Some 10 }
    ensures name_behind_bracket { bad_place (codes "a[0]b") ≡ Some 4 }
    ensures other_escape { bad_place (codes "[\"\\n\"]") ≡ Some 3 }
    ensures cut_off { bad_place (codes "a[\"b") ≡ Some 4 }
    ensures no_segments { segments_of (codes "a.") ≡ None }
    ensures told { is_path (codes "a]") ≡ false }
{}

/// What stands at a few paths. It is proved and does nothing.
pub fn found_vectors()
    ensures in_list { value_at (codes "a[1]")
        ((codes "a", Value.List (Value.Null ∷ Value.Flag true ∷ [])) ∷ []) ≡ Some (Value.Flag true) }
    ensures through_secrets { value_at (codes "a.b")
        ((codes "a", Value.Secret (Value.Secret (Value.Object ((codes "b", Value.Secret Value.Null) ∷ [])))) ∷ [])
        ≡ Some (Value.Secret Value.Null) }
    ensures no_element { value_at (codes "a[1]") ((codes "a", Value.List (Value.Null ∷ [])) ∷ []) ≡ None }
    ensures key_of_list { value_at (codes "a.b") ((codes "a", Value.List (Value.Null ∷ [])) ∷ []) ≡ None }
    ensures index_of_fields { value_at (codes "[0]") ((codes "a", Value.Null) ∷ []) ≡ None }
{}

/// Fields that are set back at a key. It is proved and does nothing.
pub fn reset_key_vectors()
    ensures taken_out { reset_at (codes "k") ((codes "k", Value.Whole (pos 2)) ∷ []) [] ≡ [] }
    ensures put { reset_at (codes "k") ((codes "k", Value.Whole (pos 2)) ∷ []) ((codes "k", Value.Null) ∷ [])
        ≡ (codes "k", Value.Null) ∷ [] }
    ensures put_in_order { reset_at (codes "b") ((codes "a", Value.Null) ∷ (codes "c", Value.Null) ∷ [])
        ((codes "b", Value.Unknown) ∷ [])
        ≡ (codes "a", Value.Null) ∷ (codes "b", Value.Unknown) ∷ (codes "c", Value.Null) ∷ [] }
    ensures in_secret { reset_at (codes "s.a")
        ((codes "s", Value.Secret (Value.Object ((codes "a", Value.Null) ∷ []))) ∷ [])
        ((codes "s", Value.Object ((codes "a", Value.Secret Value.Unknown) ∷ [])) ∷ [])
        ≡ (codes "s", Value.Secret (Value.Object ((codes "a", Value.Secret Value.Unknown) ∷ []))) ∷ [] }
    ensures no_way_in_old { reset_at (codes "s.a")
        ((codes "s", Value.Object ((codes "a", Value.Null) ∷ [])) ∷ []) []
        ≡ (codes "s", Value.Object []) ∷ [] }
    ensures no_holder { reset_at (codes "s.a") ((codes "t", Value.Null) ∷ [])
        ((codes "s", Value.Object ((codes "a", Value.Null) ∷ [])) ∷ []) ≡ (codes "t", Value.Null) ∷ [] }
{}

/// Fields that are set back at an element, or are not for their depth. It is proved and does nothing.
pub fn reset_element_vectors()
    ensures put { reset_at (codes "l[1]")
        ((codes "l", Value.List (Value.Null ∷ Value.Null ∷ [])) ∷ [])
        ((codes "l", Value.List (Value.Unknown ∷ Value.Flag true ∷ [])) ∷ [])
        ≡ (codes "l", Value.List (Value.Null ∷ Value.Flag true ∷ [])) ∷ [] }
    ensures not_in_old { reset_at (codes "l[0]") ((codes "l", Value.List (Value.Null ∷ [])) ∷ [])
        ((codes "l", Value.List []) ∷ []) ≡ (codes "l", Value.List (Value.Null ∷ [])) ∷ [] }
    ensures not_in_new { reset_at (codes "l[0]") ((codes "l", Value.List []) ∷ [])
        ((codes "l", Value.List (Value.Null ∷ [])) ∷ []) ≡ (codes "l", Value.List []) ∷ [] }
    ensures behind_element { reset_at (codes "l[0].a")
        ((codes "l", Value.List (Value.Object ((codes "a", Value.Null) ∷ []) ∷ [])) ∷ []) []
        ≡ (codes "l", Value.List (Value.Object [] ∷ [])) ∷ [] }
    ensures deepest { reset_at (codes "a") [] ((codes "a", nested 64) ∷ []) ≡ (codes "a", nested 64) ∷ [] }
    ensures too_deep { reset_at (codes "a") [] ((codes "a", nested 65) ∷ []) ≡ [] }
{}
