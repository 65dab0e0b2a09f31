//! What the heap and the class table of a world say of making instances.
//!
//! Each law is a function with an empty body: what it ensures is the law.
ghost use Rattle.std.specs.Prelude.{◌≡◌, ℕ};
ghost use Rattle.cs_word.specs.declared.Oop.{Oop};
ghost use Rattle.cs_classes.specs.Instances.{behavior_index, plan_of};
ghost use Rattle.cs_model.specs.State.{Kept};
ghost use Rattle.cs_model.specs.Instance.{behavior_hash, hashed, instantiate};
ghost use Rattle.cs_acts.specs.Instances.{made_of};
ghost use Rattle.cs_acts.specs.Names.{IsNamed, Store, name_of};
ghost use Rattle.cs_acts.specs.Ready.{Holds};

/// The index that a class has or takes in the model, or why there is none, is what the heap and the class table say.
pub fn the_index_of_a_class_is_that_of_the_table()
    ensures { (s : Store) (k : Kept) (o : Oop) → Holds s k → IsNamed s o
        → behavior_hash k (name_of s o) ≡ hashed k (name_of s o) (behavior_index s.memory.objects s.table o.0) }
{}

/// An instance that is made in the model, or why none is, is what the heap and the class table plan.
pub fn an_instance_is_what_is_planned()
    ensures { (s : Store) (k : Kept) (o : Oop) (size : ℕ) → Holds s k → IsNamed s o
        → instantiate k (name_of s o) size ≡ made_of k (name_of s o) (plan_of s.memory.objects s.table o.0 size) }
{}
