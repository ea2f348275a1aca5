//! Order texts are read exactly as they are written. Each law is the contract of a function with an empty body.
ghost use Rattle.std.specs.Prelude.{◌≡◌, ℕ, List, Ok};
ghost use Rattle.seq_base.specs.Setting.{Parameters};
ghost use Rattle.seq_base.specs.declared.tx.Tx.{Tx};
ghost use Rattle.plan_text.specs.declared.order.OrderText.{OrderText};
ghost use Rattle.plan_text.specs.OrderGrammar.{AreOrders, order_text_of};
ghost use Rattle.plan_text.specs.OrderReading.{make_order_text, read_orders};

/// A text of the grammar is read back with no fault, and a text that is read with no fault is of the grammar.
pub fn order_texts_are_read_as_spelled()
    ensures spelled { (s : Parameters) (lists : List (List Tx)) → AreOrders s lists → read_orders (order_text_of s lists) ≡ Ok (make_order_text s lists) }
    ensures read { (text : List ℕ) (orders : OrderText) → read_orders text ≡ Ok orders
        → AreOrders orders.setting orders.lists × (text ≡ order_text_of orders.setting orders.lists) }
{}
